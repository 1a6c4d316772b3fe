// The texts of the groups of a report line written one after the other. Only crates of this repository call this.
#![tactic(auto)]

mod writing;

pub use writing::{Line, write_line};
