// The ranges of "none", with tables on the stack. Only crates of this repository call this.
#![tactic(auto)]

mod nones;

pub use nones::none_with;
