// The runs of equal texts in a sorted stretch. Only crates of this repository call these.
#![tactic(auto)]

mod runs;

pub use runs::{number_runs, run_end};
pub use sorting_texts::Unfit;
