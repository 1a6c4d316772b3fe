// Ranges that are each offered once: those that no other place can have are written, the others sought in the list of
// records, from a sample of it, and counted where they are found. Only crates of this repository call these.
#![tactic(auto)]

mod noting;
mod offering;

pub use offering::{Run, Source, offer_range, start_run};
