// Digests gathered into groups, in lent work memory. Only crates of this repository call this.
#![tactic(auto)]

mod grouping;

pub use grouping::gather;
