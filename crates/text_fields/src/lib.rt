// The fields of a line, which are parted by blanks: numbers, records, marks, names and texts, and what an answer is held to. Only
// programs of this repository call these.
#![tactic(auto)]

mod answers;
mod decimals;
mod fields;
mod hexadecimals;
mod marks;
mod names;
mod verdict;

pub use answers::{is_text, is_zero, same_numbers};
pub use decimals::{behind, decimal, decimal_at, is_set, numbers_at, small_at};
pub use fields::{content, field, field_end, item_end, letter_count};
pub use hexadecimals::{bytes_at, from_hex, hex_at};
pub use marks::{are_marks, marks_at, records_at};
pub use names::names_at;
pub use verdict::Verdict;
