// The entry at a place.
ghost use Rattle.std.specs.Prelude.{◌≡◌, [], ◌∷◌, ◌+◌, ◌<◌, ◌≤◌, ◌^◌, length};
ghost use Rattle.records.specs.Outcome.{outcome};
ghost use Rattle.fasta_lines.specs.Lines.{run_of};
ghost use Rattle.fasta_lines.specs.declared.runs.Run.TheVariants.{Line, Word};
ghost use Rattle.records.specs.Answers.{Passed};
ghost use Rattle.fasta.specs.Entries.{entry_letters, entry_tested, given_outcome, entry_outcome, read_outcome};

use crate::entry::{Entry, Fault};
use crate::naming::{is_good_name, put_name};
use fasta_lines::{Run, entry_len, has_bad, is_too_long, put_letters, run_len};
use records::Refusal;

// What is wrong with an entry, whose `>` stands at q, whose first line has `head` bytes and whose name `word`: 12, then 2.
fn entry_tested(e: &[u8], q: usize, head: usize, word: usize) -> Result<(), Refusal>
    requires { (head ≡ run_of Line e.now) × (head ≤ length e.now) × (word ≡ run_of Word e.now) × (word ≤ length e.now) × (q + 1 + length e.now < 2 ^ 64) }
    ensures { result ≡ entry_tested q e.now }
{
    if !is_good_name(&e[..word]) {
        return Err(Refusal::Name(q + 1));
    }
    if has_bad(&e[head..]) {
        let good = run_len(Run::Letters, &e[head..]);
        return Err(Refusal::Letter(q + 1 + head + good));
    }
    Ok(())
}

// Hands out an entry that passed: 11 if either buffer is short.
fn give(
    e: &[u8],
    q: usize,
    head: usize,
    word: usize,
    name: &mut [u8],
    letters: &mut [u8],
) -> Result<Option<Entry>, Fault>
    requires { (head ≡ run_of Line e.now) × (head ≤ length e.now) × (word ≡ run_of Word e.now) × (word ≤ length e.now) × (length (entry_letters e.now) ≤ 65536) × (entry_tested q e.now ≡ Passed) × (q + 1 + length e.now < 2 ^ 64) }
    ensures { outcome result (name.new ∷ letters.new ∷ []) ≡ given_outcome q e.now name.old letters.old }
{
    let named = 64 <= name.len();
    let most = letters.len();
    let next = q + 1 + e.len();
    put_name(&e[..word], name);
    let count = put_letters(&e[head..], letters);
    if named & (count <= most) {
        let letters = count as u32;
        return Ok(Some(Entry { next, letters }));
    }
    Err(Fault::Refused(Refusal::Room))
}

// The entry that begins behind the `>` at q: 1, then 12 and 2, then 11.
fn read_behind(
    e: &[u8],
    q: usize,
    name: &mut [u8],
    letters: &mut [u8],
) -> Result<Option<Entry>, Fault>
    requires { q + 1 + length e.now < 2 ^ 64 }
    ensures { outcome result (name.new ∷ letters.new ∷ []) ≡ entry_outcome q e.now name.old letters.old }
{
    let head = run_len(Run::Line, e);
    if is_too_long(&e[head..]) {
        return Err(Fault::Long(q));
    }
    let word = run_len(Run::Word, e);
    entry_tested(e, q, head, word)?;
    give(e, q, head, word, name, letters)
}

// Reads the entry at a place: 9, 14, then of the entry 1, 12, 2, then 11. It reads as if the file began there.
pub fn read_entry(
    bytes: &[u8],
    at: usize,
    name: &mut [u8],
    letters: &mut [u8],
) -> Result<Option<Entry>, Fault>
    ensures { outcome result (name.new ∷ letters.new ∷ []) ≡ read_outcome bytes.now at name.old letters.old }
{
    if bytes.len() < at {
        return Err(Fault::Refused(Refusal::Field(0)));
    }
    let q = at + run_len(Run::Ends, &bytes[at..]);
    if bytes.len() <= q {
        return Ok(None);
    }
    if bytes[q] != 62 {
        return Err(Fault::Refused(Refusal::Stray(q)));
    }
    let behind = q + 1;
    let next = behind + entry_len(&bytes[behind..]);
    read_behind(&bytes[behind..next], q, name, letters)
}
