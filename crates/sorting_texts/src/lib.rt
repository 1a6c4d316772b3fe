// What numbers stand for: lists, names, letters and joined names. Only crates of this repository call these.
#![tactic(auto)]

mod naming;
mod text;

pub use naming::{Step, entry_number, tag_length, walk};
pub use text::{By, Range, Unfit, list_of, name_of, number_at, range_of};
