// Hexadecimal numbers and bytes of a line.
ghost use Rattle.std.specs.Prelude.{◌≤◌, ◌<◌, length};
ghost use Rattle.io.specs.Counts.{IsPrefixLen};

use crate::fields::field;
use records::byte_at;

// What a hexadecimal digit stands for.
fn nibble(b: u8) -> u8
    ensures { result < 16 }
{
    if b'a' <= b { (b % 16 + 9) % 16 } else { b % 16 }
}

// The hexadecimal number of eight digits that begins at a place.
fn hex(line: &[u8], at: usize) -> u32
    requires { at ≤ length line.now }
{
    let mut n: u32 = 0;
    for k in 0..8 {
        let d = nibble(byte_at(line, at + k));
        n = (n % 268435456) * 16 + u32::from(d);
    }
    n
}

// The hexadecimal number of eight digits in field k.
// As `decimal_at`, but that each reads its own kind of number: a function as a parameter would save no line.
pub fn hex_at(line: &[u8], k: usize) -> u32 {
    hex(line, field(line, k))
}

// The byte of two hexadecimal digits.
pub fn from_hex(high: u8, low: u8) -> u8 {
    nibble(high) * 16 + nibble(low)
}

// The bytes that stand at the front of a text in hexadecimal, at the front of out: how many there are. `-` stands for none.
pub(crate) fn unhex(line: &[u8], out: &mut [u8]) -> usize
    ensures { IsPrefixLen result out.new }
{
    for n in 0..out.len() {
        let at = 2 * n;
        let high = byte_at(line, at);
        if high < b'0' {
            return n;
        }
        let low = byte_at(line, at + 1);
        out[n] = from_hex(high, low);
    }
    out.len()
}

// The bytes of field k.
pub fn bytes_at(line: &[u8], k: usize, out: &mut [u8]) -> usize
    ensures { IsPrefixLen result out.new }
{
    let from = field(line, k);
    unhex(&line[from..], out)
}
