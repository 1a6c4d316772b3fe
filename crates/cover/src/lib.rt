// The cover of groups: a mark for each group, such that every meta-peptide with an edge has a marked one. And its update, which leaves
// the marks of parts alone in which no edge differs.
#![tactic(auto)]

mod covering;
mod handing;
mod updating;

pub use covering::cover;
pub use updating::update;
