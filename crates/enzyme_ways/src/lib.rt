// The ways to the digests of a protein, by the enzyme and by how long the protein is. Only crates of this repository call this.
#![tactic(auto)]

mod ends;
mod reading;
mod ways;

pub use reading::offer_read;
