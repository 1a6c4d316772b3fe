// Proteins grouped by the peptides that show them.
#![tactic(auto)]

mod arranging;
mod grouping;

pub use grouping::{Sizes, group_proteins};
