// The counter of choices.
#![tactic(auto)]

mod choice;

pub use choice::Choice;
