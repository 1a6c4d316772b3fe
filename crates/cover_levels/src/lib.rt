// The tables of the walk by levels, made from edge records in one lent slice. No entries: only crates of this repository call these.
#![tactic(auto)]

mod filling;
mod listing;
mod ordering;
mod preparing;

pub use preparing::prepare;
