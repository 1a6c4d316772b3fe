// Digests gathered into groups of the same position, decoy flag and letters.
#![tactic(auto)]

mod grouping;
mod tests;

pub use grouping::group_digests;
pub use tests::tested;
