// The tests of a grouping of proteins. Only crates of this repository call this.
#![tactic(auto)]

mod tests;

pub use tests::Asked;
