// Records and marks of a line. Buffers have room for one more than they hold, so that one too many is seen.
ghost use Rattle.io.specs.Counts.{IsPrefixLen};

use crate::decimals::numbers_at;
use crate::fields::{content, field, field_end};
use check::same;
use records::{byte_at, put_u32};

// Numbers as bytes at the front of out: how many there are.
fn put_all(numbers: &[u32], out: &mut [u8]) -> usize
    ensures { IsPrefixLen result out.new }
{
    let mut at = 0;
    for number in numbers {
        if out.len() - at < 4 {
            return at;
        }
        put_u32(out, at, *number);
        at += 4;
    }
    at
}

// The numbers of field k as the bytes of records at the front of out, at most 512 of them: how many bytes there are.
pub fn records_at(line: &[u8], k: usize, out: &mut [u8]) -> usize
    ensures { IsPrefixLen result out.new }
{
    let mut numbers = [0u32; 512];
    let n = numbers_at(line, k, &mut numbers);
    put_all(&numbers[..n], out)
}

// The digits of a text at the front of out: how many there are.
fn digits(s: &[u8], out: &mut [u8]) -> usize
    ensures { IsPrefixLen result out.new }
{
    let n = content(s).min(out.len());
    for i in 0..n {
        out[i] = byte_at(s, i) % 16;
    }
    n
}

// The marks of field k at the front of out: how many there are.
pub fn marks_at(line: &[u8], k: usize, out: &mut [u8]) -> usize
    ensures { IsPrefixLen result out.new }
{
    let from = field(line, k);
    let to = field_end(line, from);
    digits(&line[from..to], out)
}

// Whether so many marks are those of field k, and nothing is written behind them: all were 2.
pub fn are_marks(line: &[u8], k: usize, marks: &[u8], count: u32) -> bool {
    let mut theirs = [2u8; 201];
    let n = marks_at(line, k, &mut theirs);
    (n == count as usize) & same(&theirs, marks)
}
