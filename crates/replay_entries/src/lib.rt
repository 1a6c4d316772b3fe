// Replays answers on sequence files, a line each. Only the program replay calls this.
#![tactic(auto)]

mod entries;

pub use entries::replay_entries;
