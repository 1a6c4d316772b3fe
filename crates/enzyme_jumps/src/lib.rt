// Cuts that are passed over, since the parts they make are too long. Only crates of this repository call these.
#![tactic(auto)]

mod cuts;

pub use cuts::{first_cut, last_cut, next_cut};
