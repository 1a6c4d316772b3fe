// Letters, sets of letters, and stretches of letters.
#![tactic(auto)]

mod letter_set;
mod reversal;
mod stretch;

pub use letter_set::LetterSet;
pub use reversal::letter_at;
pub use stretch::{capital, first_bad, has_small, is_capital, is_letter, is_small, raise_all};
