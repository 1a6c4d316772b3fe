// The merge sort of a stretch. Only crates of this repository call this.
#![tactic(auto)]

mod merging;

pub use merging::sort_range;
