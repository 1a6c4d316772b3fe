// Rule records.
#![tactic(auto)]

mod rule;

pub use rule::{Rule, first_bad_rule, read_rule, test_rules, write_rule};
