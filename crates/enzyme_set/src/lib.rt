// The ranges of a set without semi, with tables on the stack. Only crates of this repository call this.
#![tactic(auto)]

mod tables;
mod windows;

pub use tables::windows_with;
