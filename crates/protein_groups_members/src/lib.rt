// Member records in lent bytes: the first bad one. No entries: only crates of this repository call these.
#![tactic(auto)]

mod members;

pub use members::first_bad_member;
