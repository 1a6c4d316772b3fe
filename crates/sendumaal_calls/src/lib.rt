// How arguments and answers pass through the C face. Only crates of this repository call these.
#![tactic(auto)]

mod enzymes;
mod files;
mod peptides;
mod rules;
mod telling;

pub use enzymes::{enzyme_numbered, is_enzyme, told_field};
pub use files::told_entry;
pub use peptide_listing::too_large;
pub use peptides::{flipped, peptide_of, reverse};
pub use rules::rule_numbered;
pub use telling::{counted, refused, told};
