// Digest records of a lent buffer: written where a range is new and there is room, tested, and sealed with the protein's
// number. Only crates of this repository call these.
#![tactic(auto)]

mod fields;
mod offering;
mod record;
mod sealing;

pub use fields::is_good;
pub use offering::{Terms, length_within, write_placed, write_range};
pub use record::{position, put_record};
pub use sealing::{seal, seal_all};
