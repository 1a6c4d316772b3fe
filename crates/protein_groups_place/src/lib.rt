// What protein grouping reads into its work memory. Only crates of this repository call this.
#![tactic(auto)]

mod placing;

pub use placing::place_pairs;
