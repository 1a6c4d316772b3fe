// Nodes joined into parts. No entries: only crates of this repository call these.
#![tactic(auto)]

mod joining;

pub use joining::{each_alone, join, join_edges, lowest};
