// A protein's sites sorted: by length and letters, or by ranks and names. Only crates of this repository call this.
#![tactic(auto)]

mod inserting;
mod merging;
mod sites;

pub use sites::sort;
