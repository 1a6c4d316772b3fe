// The tests of a lent catalogue of names and of a lent sequence book. Nothing lent is changed, and no work memory is asked for.
#![tactic(auto)]

mod book;

pub use book::{book_tested, letters_tested};
pub use catalogue_name::{is_name, name_length};
pub use catalogue_names::names_tested;
