// The new windows of neighbouring sites as records, with how often each occurs. Only crates of this repository call this.
#![tactic(auto)]

mod picking;

pub use picking::list_size;
