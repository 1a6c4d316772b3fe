// Where an enzyme cuts a protein, and whether two stretches of letters are the same. Only crates of this repository
// call these.
#![tactic(auto)]

mod kinds;
mod scan;
mod stretch;

pub use kinds::{Enzyme, Kind, Knife, Side};
pub use scan::{Cut, next_cut};
pub use stretch::equal;
