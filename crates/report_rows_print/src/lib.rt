// What report_rows prints: report lines, and why a text is refused. Only that program calls these.
#![tactic(auto)]

mod reports;
mod saying;

pub use reports::{Groups, report};
pub use saying::{refusal, refused_flag, refused_name, refuses, too_large};
