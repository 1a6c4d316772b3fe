// Edge records in lent bytes, and what is made of them: the first bad record, linked lists. No entries: only crates of this
// repository call these.
#![tactic(auto)]

mod clearing;
mod edges;
mod linking;
mod range;

pub use clearing::clear_marks;
pub use edges::Edges;
pub use linking::link;
pub use range::{first_bad_edge, first_bad_mark};
