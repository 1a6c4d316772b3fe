// Whether a group's edges differ in two lists. No entries: only crates of this repository call this.
#![tactic(auto)]

mod differing;
mod links;
mod passing;

pub use differing::differs_at;
pub use links::Links;
