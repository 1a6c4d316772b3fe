// For each start of the letters, a length such that no longer stretch from it stands at another start: it is told by short words
// that stand once. Only crates of this repository call these.
#![tactic(auto)]

mod coding;
mod filling;
mod width;

pub use filling::fill_far;
