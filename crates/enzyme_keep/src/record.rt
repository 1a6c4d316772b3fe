// Digest records.
ghost use Rattle.std.specs.Prelude.{◌≡◌, [], ◌∷◌, ◌+◌, ◌≤◌, length};
ghost use Rattle.std.proofs.lemmas.List.Edits.{sets};
ghost use Rattle.records.specs.Le.{le};
ghost use Rattle.enzyme_cuts.specs.Cutting.{range};
ghost use Rattle.enzyme_keep.specs.Digests.{position_of, record_of};
ghost use Rattle.enzyme_keep.specs.Buffer.{placed_record};

// Where a range stands in a protein of n letters.
// A number: it is the byte of a record.
pub fn position(a: usize, e: usize, n: usize) -> u8
    ensures { result ≡ position_of n a e }
{
    if a == 0 {
        if e == n { 2 } else { 0 }
    } else {
        if e == n { 1 } else { 3 }
    }
}

// Writes a number as four bytes. They are known to stand there, so that a record is written without a test of its room.
pub(crate) fn put_number(out: &mut [u8], at: usize, n: u32)
    requires { at + 4 ≤ length out.old }
    ensures { out.new ≡ sets out.old at (le 4 n) }
{
    let bytes = n.to_le_bytes();
    out[at..at + 4].copy_from_slice(&bytes);
}

// The four bytes behind start and end as one number, so that they are written at once.
fn marks(missed: u8, semi: u8, place: u8) -> u32
    ensures { le 4 result ≡ missed ∷ semi ∷ place ∷ 0 ∷ [] }
{
    u32::from_le_bytes([missed, semi, place, 0])
}

// Writes the record of a range with this position, which occurs so many times, with `last` where the protein's number stands.
pub(crate) fn put_placed(
    out: &mut [u8],
    at: usize,
    a: usize,
    e: usize,
    missed: u8,
    semi: u8,
    place: u8,
    last: u32,
    times: u32,
)
    requires { (at + 20 ≤ length out.old) × (a ≤ 65536) × (e ≤ 65536) }
    ensures { out.new ≡ sets out.old at (placed_record place last (range a e missed semi) times) }
{
    let start = a as u32;
    let end = e as u32;
    put_number(out, at, start);
    put_number(out, at + 4, end);
    put_number(out, at + 8, marks(missed, semi, place));
    put_number(out, at + 12, last);
    put_number(out, at + 16, times);
}

// The same of a protein of n letters.
pub fn put_record(
    out: &mut [u8],
    at: usize,
    a: usize,
    e: usize,
    missed: u8,
    semi: u8,
    n: usize,
    last: u32,
    times: u32,
)
    requires { (at + 20 ≤ length out.old) × (a ≤ 65536) × (e ≤ 65536) }
    ensures { out.new ≡ sets out.old at (record_of n last (range a e missed semi) times) }
{
    let place = position(a, e, n);
    put_placed(out, at, a, e, missed, semi, place, last, times);
}
