// What a digest must be to become a peptide. Only crates of this repository call this.
#![tactic(auto)]

mod digests;

pub use digests::test_digest;
