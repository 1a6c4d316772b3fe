// The ranges of "none", without a search for earlier letters: every range is looked at in the order of lengths and starts,
// so a range is new exactly where it is longer than what its start shares with an earlier one. Only crates of this
// repository call this.
#![tactic(auto)]

mod listing;
mod tables;
mod telling;

pub use listing::list_measured;
