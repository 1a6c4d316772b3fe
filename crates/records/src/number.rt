// Bytes and little-endian numbers in lent bytes: what is read past the end is 0, what is written past it is lost.
ghost use Rattle.std.specs.Prelude.{◌≡◌, ◌+◌, ◌*◌, ◌≤◌, ◌<◌, length, get_or, set};
ghost use Rattle.std.proofs.lemmas.List.Edits.{sets};
ghost use Rattle.records.specs.Le.{le, number_at};

use crate::work::put_at;

// The number as an index.
pub fn wide(x: u32) -> usize
    ensures { (result ≡ x) × (result < 4294967296) }
{
    x as usize
}

// The byte at a place.
pub fn byte_at(s: &[u8], at: usize) -> u8
    ensures { result ≡ get_or s.now at 0 }
{
    s.get(at).copied().unwrap_or(0)
}

// Stores a byte at a place, and nothing else.
pub fn put_byte(out: &mut [u8], at: usize, b: u8)
    ensures { out.new ≡ set out.old at b }
{
    if at < out.len() {
        out[at] = b;
    }
}

// The number where fewer than four bytes stand from a place on. The first is read last: otherwise the compiler reads it before it is known
// how many there are, and no longer makes one read of four.
fn short_at(s: &[u8], at: usize) -> u32
    requires { (at < length s.now) × (length s.now < at + 4) }
    ensures { result ≡ number_at 4 s.now at }
{
    let b = byte_at(s, at + 1);
    let c = byte_at(s, at + 2);
    u32::from_le_bytes([s[at], b, c, 0])
}

// The number in the four bytes from a place on.
pub fn u32_at(s: &[u8], at: usize) -> u32
    ensures { result ≡ number_at 4 s.now at }
{
    if s.len() <= at {
        return 0;
    }
    if 4 <= s.len() - at {
        return u32::from_le_bytes([s[at], s[at + 1], s[at + 2], s[at + 3]]);
    }
    short_at(s, at)
}

// Stores a number as four bytes from a place on, and nothing else.
pub fn put_u32(out: &mut [u8], at: usize, n: u32)
    ensures { out.new ≡ sets out.old at (le 4 n) }
{
    let bytes = n.to_le_bytes();
    if (at < out.len()) && (4 <= out.len() - at) {
        out[at..at + 4].copy_from_slice(&bytes);
    } else {
        put_at(out, at, &bytes);
    }
}
