// The base mass of letters, and what is tested before.
#![tactic(auto)]

mod mass;

pub use mass::{base_mass, has_no_mass, test_part};
