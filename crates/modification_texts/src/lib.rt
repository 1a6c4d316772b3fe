// Rule texts.
#![tactic(auto)]

mod text;

pub use text::{parse, write};
