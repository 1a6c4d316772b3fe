// The C face: the entries of the library over numbers, slices and results, as include/sendumaal.h declares them.
// That header holds what no Rust would say so: long lists of arguments, numbers for kinds and flags, results behind references,
// and an entry of its own for each of two that differ in what they call.
#![tactic(auto)]

mod digests;
mod files;
mod groups;
mod names;
mod peptides;
mod proteins;
mod rules;
mod sets;
mod table;

pub use digests::{
    sendumaal_digest, sendumaal_digest_letters, sendumaal_digest_reverse, sendumaal_letters_reverse,
};
pub use files::sendumaal_fasta_entry;
pub use groups::{sendumaal_cover, sendumaal_group_digests, sendumaal_update};
pub use names::{sendumaal_letters_test, sendumaal_names_test};
pub use peptides::{
    sendumaal_base_mass, sendumaal_digest_mass, sendumaal_forms, sendumaal_peptide_reverse,
    sendumaal_peptide_test,
};
pub use proteins::{sendumaal_group_proteins, sendumaal_report_line};
pub use rules::{
    sendumaal_fixed_rules_test, sendumaal_rule_parse, sendumaal_rule_read, sendumaal_rule_record,
    sendumaal_rule_write, sendumaal_variable_rules_test,
};
pub use sets::{sendumaal_set_contains, sendumaal_set_insert};
pub use table::sendumaal_modification_id;
