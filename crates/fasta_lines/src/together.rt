// Lines put together: the bytes that belong to no line end.
ghost use Rattle.std.specs.Prelude.{◌≡◌, ◌+◌, ◌-◌, ◌%◌, ◌<◌, length, ltb};
ghost use Rattle.std.proofs.lemmas.List.Edits.{sets};
ghost use Rattle.letters.specs.Letters.{capital, capitals};
ghost use Rattle.fasta_lines.specs.declared.runs.Run.TheVariants.{Letters};
ghost use Rattle.fasta_lines.specs.Lines.{run_of, together};

use crate::runs::{Run, goes_on, line_end};
use records::{byte_at, put_byte};

// How many there are.
fn letter_count(s: &[u8]) -> usize
    ensures { result ≡ length (together s.now) }
{
    let mut n = 0;
    for (i, b) in s.iter().enumerate() {
        if !line_end(*b, byte_at(s, i + 1)) {
            n += 1;
        }
    }
    n
}

// Whether there are more than a protein's 65,536. Few entries have so many bytes that they have to be counted.
pub fn is_too_long(s: &[u8]) -> bool
    ensures { result ≡ ltb 65536 (length (together s.now)) }
{
    if s.len() <= 65536 {
        return false;
    }
    65536 < letter_count(s)
}

// Whether one of them is no letter. It looks at all, the last byte apart, behind which none stands: a loop that ends early, or looks
// whether a byte stands behind, costs more than one that goes over many bytes at a time.
pub fn has_bad(s: &[u8]) -> bool
    ensures { result ≡ ltb (run_of Letters s.now) (length s.now) }
{
    if s.is_empty() {
        return false;
    }
    let last = s.len() - 1;
    let mut found = false;
    for i in 0..last {
        found |= !goes_on(Run::Letters, s[i], s[i + 1]);
    }
    found | !goes_on(Run::Letters, s[last], 0)
}

// The capital of a letter. The sum branches less than a test for small letters does.
fn raised(b: u8) -> u8
    requires { 64 < b }
    ensures { result ≡ 65 + (b - 65) % 32 }
{
    65 + (b - 65) % 32
}

// Stores them as capitals, as many as fit: how many there are. All are letters, so that a byte above 64 is one, and any other belongs
// to a line end.
pub fn put_letters(s: &[u8], out: &mut [u8]) -> usize
    requires { run_of Letters s.now ≡ length s.now }
    ensures { (result ≡ length (together s.now)) × (out.new ≡ sets out.old 0 (capitals (together s.now))) }
{
    let mut k = 0;
    for b in s {
        if 64 < *b {
            put_byte(out, k, raised(*b));
            k += 1;
        }
    }
    k
}
