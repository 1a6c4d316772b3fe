// Samples of a list of records put in and taken out. Only crates of this repository call these.
#![tactic(auto)]

mod marking;

pub use marking::{count_one, mark_first, split, thin};
