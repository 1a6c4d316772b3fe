// One stable sort of a stretch of a lent slice, tested. Only crates of this repository call these.
#![tactic(auto)]

mod slices;

pub use slices::{fits, sort};
