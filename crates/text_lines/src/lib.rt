// The lines of a text, how it is read, tables, and counts in 32 bits. Only programs of this repository call these.
#![tactic(auto)]

mod counts;
mod lines;
mod reading;

pub use counts::{more, narrow, table, up_to};
pub use lines::{column_end, line_end, next};
pub use reading::read_full;
