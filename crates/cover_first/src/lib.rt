// The first pass of the cover, over the tables that cover_levels lays out. No entries: only crates of this repository call this.
#![tactic(auto)]

mod marking;

pub use marking::first;
