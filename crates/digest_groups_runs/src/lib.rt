// Sorted digests made groups, run by run. Only crates of this repository call this.
#![tactic(auto)]

mod groups;

pub use groups::gather_runs;
