// Replays answers on covers, groups of proteins and report lines, a line each. Only the program replay calls these.
#![tactic(auto)]

mod covers;
mod passes;
mod proteins;
mod reports;
mod updates;

pub use covers::replay_cover;
pub use passes::replay_pass;
pub use proteins::replay_groups;
pub use reports::replay_line;
pub use updates::replay_update;
