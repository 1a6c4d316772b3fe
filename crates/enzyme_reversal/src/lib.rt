// Reversal of digests and of their records, and the letters of a record. The crate enzyme gives these to callers.
#![tactic(auto)]

mod reversal;
mod spelling;

pub use reversal::{reverse_letters, reverse_record};
pub use spelling::digest_letters;
