// Decimal numbers of a line.
ghost use Rattle.std.specs.Prelude.{◌≤◌, length};
ghost use Rattle.io.specs.Counts.{IsPrefixLen};

use crate::fields::{content, field, field_end};

// A decimal number with one digit more, or the greatest.
fn longer(n: u32, b: u8) -> u32 {
    let wide = u64::from(n) * 10 + u64::from(b % 16);
    u32::try_from(wide).unwrap_or(u32::MAX)
}

// The decimal number that begins at a place.
pub fn decimal(line: &[u8], at: usize) -> u32 {
    let mut n: u32 = 0;
    for i in at..line.len() {
        let b = line[i];
        if !b.is_ascii_digit() {
            return n;
        }
        n = longer(n, b);
    }
    n
}

// Whether a byte is a digit of a decimal or a hexadecimal number.
fn in_number(b: u8) -> bool {
    b.is_ascii_digit() | (b'a' <= b)
}

// The place behind the number at a place and the byte that ends it.
pub fn behind(line: &[u8], at: usize) -> usize
    ensures { result ≤ length line.now }
{
    for i in at..line.len() {
        if !in_number(line[i]) {
            return i + 1;
        }
    }
    line.len()
}

// The decimal number of field k.
pub fn decimal_at(line: &[u8], k: usize) -> u32 {
    decimal(line, field(line, k))
}

// The same, or 255 where it does not fit a byte.
pub fn small_at(line: &[u8], k: usize) -> u8 {
    u8::try_from(decimal_at(line, k)).unwrap_or(u8::MAX)
}

// Whether field k is 1.
pub fn is_set(line: &[u8], k: usize) -> bool {
    decimal_at(line, k) == 1
}

// The decimal numbers of a text, each ended by one byte, at the front of out: how many there are. `-` stands for none.
fn numbers(s: &[u8], out: &mut [u32]) -> usize
    ensures { IsPrefixLen result out.new }
{
    let end = content(s);
    let mut at = 0;
    for n in 0..out.len() {
        if end <= at {
            return n;
        }
        out[n] = decimal(s, at);
        at = behind(s, at);
    }
    out.len()
}

// The decimal numbers of field k.
pub fn numbers_at(line: &[u8], k: usize, out: &mut [u32]) -> usize
    ensures { IsPrefixLen result out.new }
{
    let from = field(line, k);
    let to = field_end(line, from);
    numbers(&line[from..to], out)
}
