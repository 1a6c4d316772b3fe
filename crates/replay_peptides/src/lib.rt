// Replays answers on modifications and peptides, a line each. Only the program replay calls these.
#![tactic(auto)]

mod forms;
mod masses;
mod rules;
mod table;

pub use forms::replay_forms;
pub use masses::replay_mass;
pub use rules::replay_rule;
pub use table::replay_insertion;
