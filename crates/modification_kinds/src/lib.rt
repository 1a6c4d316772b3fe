// What a rule hits: its kind and its letter.
#![tactic(auto)]

mod specificity;

pub use specificity::{Specificity, is_sound, specificity_of};
