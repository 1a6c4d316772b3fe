// Forms. A line is the letters, their ids in hexadecimal, the ids of the ends, the position, the variable and the fixed
// rules in hexadecimal or `-` for none, the limit, the cap, the number of the Rust's forms, and these in hexadecimal: the
// ids of the ends, then of the letters.
ghost use Rattle.std.specs.Prelude.{◌≡◌, ◌≤◌, ◌<◌, length};

use peptide::Peptide;
use records::{Refusal, byte_at, put_byte};
use text_fields::{Verdict, behind, bytes_at, decimal_at, field, from_hex, letter_count, small_at};

// The ids that the peptide begins with.
fn read_form(line: &[u8], form: &mut [u8])
    requires { length form.old ≡ 66 }
{
    bytes_at(line, 1, &mut form[2..66]);
    put_byte(form, 0, small_at(line, 2));
    put_byte(form, 1, small_at(line, 3));
}

fn peptide_of(line: &[u8]) -> Result<Peptide, Refusal> {
    let mut form = [0u8; 66];
    read_form(line, &mut form);
    let n = letter_count(line);
    Peptide::of_form(&line[0..n], &form, small_at(line, 4), false)
}

// The library's forms.
fn answer_of(line: &[u8], out: &mut [u8]) -> Result<u32, Refusal> {
    let p = peptide_of(line)?;
    let mut variable = [0u8; 128];
    let v = bytes_at(line, 5, &mut variable);
    let mut fixed = [0u8; 256];
    let f = bytes_at(line, 6, &mut fixed);
    let limit = decimal_at(line, 7);
    let cap = decimal_at(line, 8);
    p.forms(&variable[..v], &fixed[..f], limit, cap, out)
}

// How many bytes of a form a line has: the ends', and one for each letter.
fn size_of(line: &[u8]) -> usize
    ensures { result ≤ 66 }
{
    let n = letter_count(line);
    n.min(64) + 2
}

// Whether byte i of record k is that of the form at a place of a line.
fn has_byte(line: &[u8], at: usize, out: &[u8], k: u32, i: usize) -> bool
    requires { (at ≤ length line.now) × (i < 66) }
{
    let high = byte_at(line, at + 2 * i);
    let low = byte_at(line, at + 2 * i + 1);
    from_hex(high, low) == byte_at(out, 66 * k as usize + i)
}

// Whether record k is the form at a place of a line.
fn has_form(line: &[u8], at: usize, out: &[u8], k: u32) -> bool
    requires { at ≤ length line.now }
{
    let size = size_of(line);
    let mut same = true;
    for i in 0..size {
        same = same & has_byte(line, at, out, k, i);
    }
    same
}

// Whether the first count records are the Rust's forms.
fn are_forms(line: &[u8], out: &[u8], count: u32) -> bool {
    let mut same = decimal_at(line, 9) == count;
    let mut at = field(line, 10);
    for k in 0..count {
        same = same & has_form(line, at, out, k);
        at = behind(line, at);
    }
    same
}

// The output is lent; what it holds does not matter.
pub fn replay_forms(line: &[u8], out: &mut [u8]) -> Verdict {
    match answer_of(line, out) {
        Ok(count) => Verdict::of(are_forms(line, out, count)),
        Err(_) => Verdict::Differs,
    }
}
