// What is written for sites that stand in a row. Only crates of this repository call these.
#![tactic(auto)]

mod rows;

pub use rows::{after, bring, count_up, mark, name_runs};
