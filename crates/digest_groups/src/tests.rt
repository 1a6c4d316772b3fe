// The tests of a grouping, in document 01's order.
ghost use Rattle.std.specs.Prelude.{◌≡◌, true, false, ◌+◌, ◌-◌, ◌*◌, ◌/◌, get_or};
ghost use Rattle.catalogue_spec.specs.Names.{too_many_names, whole_names};
ghost use Rattle.digest_groups_spec.specs.DigestGrouping.{too_large, uneven, needed, good_digest, first_bad_digest, contents, tested};

use records::{Refusal, field_tested};

fn too_large(names: &[u8], letters: &[u8], digests: &[u8]) -> bool
    ensures { result ≡ too_large names.now letters.now digests.now }
{
    catalogue_names::too_many_names(names)
        | catalogue_book::too_many_letters(letters)
        | (1048576 < digests.len() / 20)
}

fn is_uneven(names: &[u8], bounds: &[u32], digests: &[u8]) -> bool
    ensures { result ≡ uneven names.now bounds.now digests.now }
{
    let proteins = catalogue_names::name_count(names);
    !(catalogue_names::are_whole_names(names)
        & catalogue_book::has_bounds(bounds, proteins)
        & (digests.len() % 20 == 0))
}

// How many numbers of work memory a call takes.
fn work_needed(names: &[u8], digests: &[u8]) -> usize
    ensures { result ≡ needed names.now digests.now }
{
    4 * (names.len() / 64) + 6 * (digests.len() / 20)
}

// How many letters a protein of the book has.
fn width(bounds: &[u32], protein: u32) -> u32
    ensures { result ≡ get_or bounds.now (protein + 1) 0 - get_or bounds.now protein 0 }
{
    let i = protein as usize;
    let from = sorting_texts::number_at(bounds, i);
    let to = sorting_texts::number_at(bounds, i + 1);
    to.saturating_sub(from)
}

// Whether a digest's fields are within theirs, and its range within a protein of the book.
fn is_good_digest(bounds: &[u32], proteins: usize, digest: &[u8]) -> bool
    ensures { result ≡ good_digest bounds.now proteins digest.now }
{
    let end = records::u32_at(digest, 4);
    let protein = records::u32_at(digest, 12);
    let whole = width(bounds, protein);
    enzyme_keep::is_good(digest) & ((protein as usize) < proteins) & (end <= whole)
}

// The first digest that is not, or their number.
// No Option: the definition answers the count where none is bad, and `field_tested` tells the two apart.
fn first_bad_digest(bounds: &[u32], proteins: usize, digests: &[u8]) -> usize
    ensures { result ≡ first_bad_digest bounds.now proteins digests.now }
{
    let n = digests.len() / 20;
    for i in 0..n {
        let at = 20 * i;
        if !is_good_digest(bounds, proteins, &digests[at..at + 20]) {
            return i;
        }
    }
    n
}

// The contents list by list: names, boundaries, letters, digests.
fn contents_tested(
    names: &[u8],
    bounds: &[u32],
    letters: &[u8],
    digests: &[u8],
) -> Result<(), Refusal>
    requires { (too_many_names names.now ≡ false) × (whole_names names.now ≡ true) }
    ensures { result ≡ contents names.now bounds.now letters.now digests.now }
{
    catalogue_names::names_tested(names)?;
    catalogue_book::bounds_tested(bounds, letters.len())?;
    catalogue_book::letters_tested(letters)?;
    let bad = first_bad_digest(bounds, catalogue_names::name_count(names), digests);
    field_tested(bad, digests.len() / 20)
}

// The first refusal that applies before the groups are written.
pub fn tested(
    names: &[u8],
    bounds: &[u32],
    letters: &[u8],
    digests: &[u8],
    words: usize,
) -> Result<(), Refusal>
    ensures { result ≡ tested names.now bounds.now letters.now digests.now words }
{
    if too_large(names, letters, digests) {
        return Err(Refusal::Size);
    }
    if is_uneven(names, bounds, digests) {
        return Err(Refusal::Length);
    }
    if words < work_needed(names, digests) {
        return Err(Refusal::Work);
    }
    contents_tested(names, bounds, letters, digests)
}
