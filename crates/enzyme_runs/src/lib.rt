// Sites put in a row by their keys, the runs of one key numbered, and those found that go on to windows of one site more. Only crates
// of this repository call these.
#![tactic(auto)]

mod keeping;
mod runs;

pub use keeping::keep;
pub use runs::line_up;
