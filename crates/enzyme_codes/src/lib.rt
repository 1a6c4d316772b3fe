// The code of a site: a number made of its letters alone. Only crates of this repository call this.
#![tactic(auto)]

mod coding;

pub use coding::code_at;
