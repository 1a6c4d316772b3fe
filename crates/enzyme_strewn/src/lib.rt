// Sites strewn into buckets before they are sorted. Only crates of this repository call this.
#![tactic(auto)]

mod counting;
mod strewing;

pub use strewing::strew;
