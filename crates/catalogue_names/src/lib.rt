// The contents of a lent catalogue of names, and its sizes, for entries that test several lists. Only crates of this repository call these.
#![tactic(auto)]

mod names;

pub use names::{are_whole_names, name_count, names_tested, names_tested_in, too_many_names};
