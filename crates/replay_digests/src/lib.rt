// Replays answers on digests and their groups, a line each. Only the program replay calls these.
#![tactic(auto)]

mod digests;
mod groups;

pub use digests::replay_digests;
pub use groups::replay_groups;
