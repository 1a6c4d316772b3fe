// The ranges of a set with semi, with tables on the stack. Only crates of this repository call these.
#![tactic(auto)]

mod semis;

pub use semis::semi_with;
