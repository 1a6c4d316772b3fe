// Windows of neighbouring sites, and the parts of those of one size, offered by the table of starts. Only crates of this repository call
// these.
#![tactic(auto)]

mod owns;
mod weighing;
mod windows;

pub use owns::offer_owns;
pub use windows::offer_all_windows;
