// What sites are sorted by, and the tables that it is read from. Only crates of this repository call these.
#![tactic(auto)]

mod keys;
mod reading;

pub use keys::{Key, Sorting};
pub use reading::{end_of, name_on, rank_of, start_of};
