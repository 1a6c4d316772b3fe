// Lines of a sequence file: where entries end, runs of bytes, and lines put together. Only crates of this repository call these.
#![tactic(auto)]

mod entries;
mod runs;
mod together;

pub use entries::entry_len;
pub use runs::{Run, run_len};
pub use together::{has_bad, is_too_long, put_letters};
