// The lists that a peptide's forms go by, tested, and the forms listed. Only crates of this repository call these.
#![tactic(auto)]

mod listing;
mod tests;

pub use listing::{fixed_table, list_all};
pub use tests::{not_whole, test_form, test_lists, too_large};
