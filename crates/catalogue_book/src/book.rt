// A sequence book: all proteins' letters in a row, and the boundaries between them.
ghost use Rattle.std.specs.Prelude.{◌≡◌, ◌<◌, length};
ghost use Rattle.catalogue_spec.specs.Book.{too_many_letters, too_many_proteins, bounds_of, bad_step, strays, ends_wrong, bad_bound, first_bad_bound, bounds_tested, letters_tested};

use records::{Refusal, field_tested};

// 1: more than 2^28 letters.
pub fn too_many_letters(letters: &[u8]) -> bool
    ensures { result ≡ too_many_letters letters.now }
{
    268435456 < letters.len()
}

// 1: more than 65,536 proteins.
pub fn too_many_proteins(proteins: usize) -> bool
    ensures { result ≡ too_many_proteins proteins }
{
    65536 < proteins
}

// 8 unless there is one boundary more than proteins.
pub fn has_bounds(bounds: &[u32], proteins: usize) -> bool
    ensures { result ≡ bounds_of bounds.now proteins }
{
    !bounds.is_empty() && bounds.len() - 1 == proteins
}

fn is_bad_step(a: u32, b: u32) -> bool
    ensures { result ≡ bad_step a b }
{
    let low = u64::from(a);
    let high = u64::from(b);
    (high < low) | (low + 65536 < high)
}

fn is_stray(bounds: &[u32], i: usize) -> bool
    requires { i < length bounds.now }
    ensures { result ≡ strays bounds.now i }
{
    if i == 0 {
        bounds[i] != 0
    } else {
        is_bad_step(bounds[i - 1], bounds[i])
    }
}

fn ends_wrong(bounds: &[u32], letters: usize, i: usize) -> bool
    requires { i < length bounds.now }
    ensures { result ≡ ends_wrong bounds.now letters i }
{
    let end = records::wide(bounds[i]);
    (i + 1 == bounds.len()) & (end != letters)
}

fn is_bad_bound(bounds: &[u32], letters: usize, i: usize) -> bool
    requires { i < length bounds.now }
    ensures { result ≡ bad_bound bounds.now letters i }
{
    is_stray(bounds, i) | ends_wrong(bounds, letters, i)
}

// The lowest bad boundary, or their number.
fn first_bad_bound(bounds: &[u32], letters: usize) -> usize
    ensures { result ≡ first_bad_bound bounds.now letters }
{
    for i in 0..bounds.len() {
        if is_bad_bound(bounds, letters, i) {
            return i;
        }
    }
    bounds.len()
}

// The tests of boundaries: 9 at the lowest bad one.
pub fn bounds_tested(bounds: &[u32], letters: usize) -> Result<(), Refusal>
    ensures { result ≡ bounds_tested bounds.now letters }
{
    if bounds.is_empty() {
        return Err(Refusal::Field(0));
    }
    field_tested(first_bad_bound(bounds, letters), bounds.len())
}

// The test of a book's letters: 2 at the first byte that is no letter.
pub fn letters_tested(letters: &[u8]) -> Result<(), Refusal>
    ensures { result ≡ letters_tested letters.now }
{
    let bad = letters::first_bad(letters);
    if bad < letters.len() {
        return Err(Refusal::Letter(bad));
    }
    Ok(())
}
