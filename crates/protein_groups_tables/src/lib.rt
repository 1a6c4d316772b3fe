// The grouping of proteins in tables of one lent slice of numbers. Only crates of this repository call these.
#![tactic(auto)]

mod evidence;
mod grouping;
mod keyed;

pub use grouping::{Made, group_in, keys_at};
