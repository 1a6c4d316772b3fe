// The contents of a lent sequence book, and its sizes, for entries that test several lists. Only crates of this repository call these.
#![tactic(auto)]

mod book;

pub use book::{bounds_tested, has_bounds, letters_tested, too_many_letters, too_many_proteins};
