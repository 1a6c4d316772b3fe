// Each stretch of a flat list sorted inside one lent slice. Only crates of this repository call this.
#![tactic(auto)]

mod stretches;

pub use stretches::sort_each;
