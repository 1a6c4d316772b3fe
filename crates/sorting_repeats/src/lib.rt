// The first name that stands twice. Only crates of this repository call this.
#![tactic(auto)]

mod repeats;

pub use repeats::first_repeated;
pub use sorting_texts::Unfit;
