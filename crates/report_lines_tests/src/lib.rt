// The tests of a report line. Only crates of this repository call these.
#![tactic(auto)]

mod tests;

pub use tests::{is_uneven, lists_tested, too_large};
