// The proteins of a list, and the groups that apply, noted in a lent slice. Only crates of this repository call these.
#![tactic(auto)]

mod noting;

pub use noting::{note_groups, note_list};
