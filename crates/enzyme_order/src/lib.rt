// How stretches of letters stand to one another: by length, then letters. Only crates of this repository call this.
#![tactic(auto)]

mod ordering;

pub use ordering::order;
