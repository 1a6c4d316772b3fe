// The tests of the cover and of its update. No entries: only crates of this repository call these.
#![tactic(auto)]

mod tests;
mod update_tests;

pub use tests::cover_tested;
pub use update_tests::update_tested;
