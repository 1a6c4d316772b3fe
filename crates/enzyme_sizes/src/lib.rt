// The parts of the windows of a set, level by level: the tables of a level tell what its windows stand for. Only crates of this
// repository call these.
#![tactic(auto)]

mod levels;
mod sizes;

pub use levels::begin;
pub use sizes::offer_sizes;
