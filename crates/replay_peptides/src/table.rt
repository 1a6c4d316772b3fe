// Tables of modifications. A line `N` begins an empty table; `I mass name id` is an insertion: the mass's bits and the name's
// number in hexadecimal, and the id that the Rust gave, or 0 where it refused a 256th.
use records::{byte_at, put_u32, u32_at};
use text_fields::{Verdict, decimal_at, hex_at};

// The table stands at the front of the memory, the number of its entries behind the 2,040 bytes that it takes at most.
const COUNT_AT: usize = 2040;

// Inserts what a line says: the id that the library gives, or 0.
fn inserted(line: &[u8], memory: &mut [u8]) -> u32 {
    let count = u32_at(memory, COUNT_AT);
    let mass = hex_at(line, 1);
    let name = hex_at(line, 2);
    let id = modification::insert(memory, count, mass, name).unwrap_or(0);
    if count < id {
        put_u32(memory, COUNT_AT, id);
    }
    id
}

// The table of the lines before is lent.
pub fn replay_insertion(line: &[u8], memory: &mut [u8]) -> Verdict {
    if byte_at(line, 0) == b'N' {
        put_u32(memory, COUNT_AT, 0);
        return Verdict::NoAnswer;
    }
    let id = inserted(line, memory);
    Verdict::of(id == decimal_at(line, 3))
}
