// The parts of one window that belong to no smaller one, offered. Only crates of this repository call this.
#![tactic(auto)]

mod parts;

pub use parts::offer_own;
