// Blocks of starts and the least number in each. Only crates of this repository call these.
#![tactic(auto)]

mod blocks;

pub use blocks::{block_end, fill_least};
