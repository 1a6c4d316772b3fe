// Things sorted by their texts in tables of one lent slice of numbers, and the texts of their runs spread out. Only crates of this
// repository call these.
#![tactic(auto)]

mod runs;

pub use runs::{Runs, distinct_runs, runs_of};
