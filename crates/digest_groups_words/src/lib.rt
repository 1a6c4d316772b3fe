// What digests are sorted by, in tables of lent work memory. Only crates of this repository call this.
#![tactic(auto)]

mod spelling;
mod words;

pub use spelling::{Spelling, spell_all};
