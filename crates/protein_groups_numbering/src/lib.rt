// Things numbered by first appearance, and the texts of runs spread out, in tables of one lent slice of numbers. Only crates of this
// repository call these.
#![tactic(auto)]

mod numbering;
mod plan;
mod spreading;

pub use numbering::number_all;
pub use plan::Plan;
pub use spreading::spread_runs;
