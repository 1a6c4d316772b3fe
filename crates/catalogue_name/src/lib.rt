// One name of a catalogue. `catalogue` hands these on.
#![tactic(auto)]

mod name;

pub use name::{is_name, name_length};
