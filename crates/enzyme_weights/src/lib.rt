// How many equal windows a window stands for, read off the tables of a level. Only crates of this repository call these.
#![tactic(auto)]

mod level;
mod weights;

pub use level::Level;
