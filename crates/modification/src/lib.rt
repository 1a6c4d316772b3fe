// Modification rules, as texts and as records, and the table of modifications: all that its parts have for callers.
#![tactic(auto)]

pub use modification_kinds::{Specificity, specificity_of};
pub use modification_rules::{Rule, first_bad_rule, read_rule, test_rules, write_rule};
pub use modification_table::insert;
pub use modification_texts::{parse, write};
