// Peptides: made from a part of a protein or a digest record, weighed, reversed, and their forms.
#![tactic(auto)]

mod digested;
mod listing;
mod making;
mod tests;

pub use digested::digest_mass;
pub use making::Peptide;
pub use peptide_mass::base_mass;
