// The groups of a report line: which apply, and their entries laid out in a lent slice. No entries: only crates of this repository
// call these.
#![tactic(auto)]

mod asked;
mod laying;
mod selecting;

pub use asked::Asked;
pub use laying::lay_out;
