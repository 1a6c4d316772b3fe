// What protein grouping writes from its work memory. Only crates of this repository call these.
#![tactic(auto)]

mod writing;

pub use writing::{write_edges, write_members};
