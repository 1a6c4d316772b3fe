// The first name of a lent catalogue that stands twice. Only crates of this repository call these.
#![tactic(auto)]

mod repeat;

pub use repeat::{first_repeat, repeat_over};
