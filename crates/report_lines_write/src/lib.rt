// The groups of a report line ordered by their texts, and written. Only crates of this repository call this.
#![tactic(auto)]

mod arranging;
mod copying;
mod lining;
mod marking;

pub use lining::line_in;
