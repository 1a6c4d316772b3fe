// A stable sort of values by their keys, in tables of one lent slice of numbers. Only crates of this repository call this.
#![tactic(auto)]

mod places;
mod sorting;

pub use places::Places;
pub use sorting::{add_up, set_bounds, sort_by_keys};
