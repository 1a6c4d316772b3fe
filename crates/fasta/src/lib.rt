// Reads sequence files (FASTA): an entry at a place of lent bytes.
#![tactic(auto)]

mod entry;
mod naming;
mod reading;

pub use entry::{Entry, Fault, number_of, place_of};
pub use reading::read_entry;
