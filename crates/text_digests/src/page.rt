// What is written of digests, and of a refusal.
ghost use Rattle.std.specs.Prelude.{◌+◌, ◌≤◌};
ghost use Rattle.io.specs.Counts.{IsPrefixLen};

use records::{Refusal, byte_at, put_at, put_byte, u32_at};
use text_lines::up_to;

// The eight numbers of the record at a place.
fn numbers_of(out: &[u8], at: usize) -> [u32; 8]
    requires { at ≤ 20971500 }
{
    [
        u32_at(out, at),
        u32_at(out, at + 4),
        u32::from(byte_at(out, at + 8)),
        u32::from(byte_at(out, at + 9)),
        u32::from(byte_at(out, at + 10)),
        u32::from(byte_at(out, at + 11)),
        u32_at(out, at + 12),
        u32_at(out, at + 16),
    ]
}

// What stands behind a number: a blank, or behind the last the line's end.
fn behind(k: usize) -> u8 {
    if k == 7 { b'\n' } else { b' ' }
}

// No number has more than 20 digits.
fn digit_count(k: usize) -> usize
    ensures { result ≤ 20 }
{
    k.min(20)
}

// Puts a number and the byte behind it at a place of a line: the place behind both.
fn put_number(line: &mut [u8], at: usize, n: u32, behind: u8) -> usize
    requires { at ≤ 1000 }
    ensures { result ≤ at + 21 }
{
    let mut digits = [0u8; 20];
    let k = io::decimal(u64::from(n), &mut digits);
    put_at(line, at, &digits[..k]);
    let end = at + digit_count(k);
    put_byte(line, end, behind);
    end + 1
}

// Puts the eight numbers of the record at a place into a line: how many bytes there are.
fn put_record(out: &[u8], at: usize, line: &mut [u8]) -> usize
    requires { at ≤ 20971500 }
    ensures { IsPrefixLen result line.new }
{
    let numbers = numbers_of(out, at);
    let mut n = 0;
    for k in 0..8 {
        n = put_number(line, n, numbers[k], behind(k));
    }
    up_to(n, line)
}

// The line of the record at a place, in one write: a file of sequences has millions of them.
fn print_record(rt: &impl Print, out: &[u8], at: usize) -> std::io::Result<()>
    requires { at ≤ 20971500 }
{
    let mut line = [0u8; 168];
    let n = put_record(out, at, &mut line);
    rt.write_all(&line[..n])
}

// No list has more than 1,048,576 records.
fn capped(count: u32) -> usize
    ensures { result ≤ 1048576 }
{
    (count as usize).min(1048576)
}

// The first count records.
pub fn print_all(rt: &impl Print, out: &[u8], count: u32) -> std::io::Result<()> {
    for k in 0..capped(count) {
        print_record(rt, out, 20 * k)?;
    }
    Ok(())
}

// A refusal's number and place, with no line end: the caller may know more.
pub fn refused(rt: &impl Print, why: u32, place: usize) -> std::io::Result<()> {
    print!(rt; "refused: number {why}, place {place}")
}

// The line of a refusal of which no more is known.
pub fn refusal(rt: &impl Print, why: Refusal) -> std::io::Result<()> {
    refused(rt, why.number(), why.place())?;
    rt.write_all(b"\n")
}
