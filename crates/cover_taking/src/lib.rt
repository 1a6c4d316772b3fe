// A group of the cover taken. No entries: only crates of this repository call this.
//
// A parameter that a body only hands on says of which edges, or of which tables, the contract speaks.
#![tactic(auto)]

mod taking;

pub use taking::choose;
