// Records in a list that rises by length and letters: a range is sought in it, and counted where it is found or linked into it. Only crates of this
// repository call these.
#![tactic(auto)]

mod counting;
mod linking;
mod offering;
mod order;
mod walk;

pub use linking::insert;
pub use offering::{Run, offer, write};
pub use order::order_at;
pub use walk::{Place, behind, search};
