// Samples of a list of records that rises: the last one below a range is found by halving. They are only advice: a search of
// the list may begin at any record of it that is below. Only crates of this repository call these.
#![tactic(auto)]

mod sampling;

pub use sampling::{head_at, head_of, last_below, sample};
