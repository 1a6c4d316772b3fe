// The sites of a protein that may have the letters of another, found by their codes. Only crates of this repository call this.
#![tactic(auto)]

mod counting;
mod picking;
mod sifting;

pub use sifting::sift;
