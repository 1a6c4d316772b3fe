// The table of modifications.
#![tactic(auto)]

mod table;

pub use table::insert;
