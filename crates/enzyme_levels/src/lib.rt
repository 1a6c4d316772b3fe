// Windows of more and more sites, ranked level by level: the tables tell which are equal. Only crates of this repository call these.
#![tactic(auto)]

mod windows;

pub use windows::{first_level, next_level};
