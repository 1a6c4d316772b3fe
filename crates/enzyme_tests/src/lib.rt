// The tests of a digestion. The crate enzyme gives these to callers.
#![tactic(auto)]

mod tests;

pub use tests::tested;
