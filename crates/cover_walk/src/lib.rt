// The run of the cover over edge records, all its tables in one lent slice, which cover_levels lays out. No entries: only crates of this
// repository call these.
//
// A parameter that a body only hands on says of which edges, or of which tables, the contract speaks.
#![tactic(auto)]

mod covering;
mod marking;
mod running;
mod walking;

pub use covering::cover_into;
