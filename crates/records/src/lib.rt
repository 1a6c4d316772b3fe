// What every entry stands on: refusals, little-endian numbers in lent bytes, and room.
#![tactic(auto)]

mod number;
mod refusal;
mod room;
mod work;

pub use number::{byte_at, put_byte, put_u32, u32_at, wide};
pub use refusal::{Refusal, and_then, field_tested};
pub use room::room_for;
pub use work::{clear, put_at};
