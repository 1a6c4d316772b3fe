// The report line of a peptide.
#![tactic(auto)]

mod reporting;

pub use reporting::{Report, report_line, tested};
