// A sequence book alone, and letters alone.
ghost use Rattle.std.specs.Prelude.{◌≡◌};
ghost use Rattle.catalogue_spec.specs.Books.{too_large, contents, book_tested, all_letters_tested};

use records::Refusal;

fn too_large(letters: &[u8], proteins: usize) -> bool
    ensures { result ≡ too_large letters.now proteins }
{
    catalogue_book::too_many_proteins(proteins) | catalogue_book::too_many_letters(letters)
}

fn contents_tested(bounds: &[u32], letters: &[u8]) -> Result<(), Refusal>
    ensures { result ≡ contents bounds.now letters.now }
{
    catalogue_book::bounds_tested(bounds, letters.len())?;
    catalogue_book::letters_tested(letters)
}

// The tests of a book of so many proteins: 1, 8, 9 at the lowest bad boundary, 2 at the first byte that is no letter.
pub fn book_tested(bounds: &[u32], letters: &[u8], proteins: usize) -> Result<(), Refusal>
    ensures { result ≡ book_tested bounds.now letters.now proteins }
{
    if too_large(letters, proteins) {
        return Err(Refusal::Size);
    }
    if !catalogue_book::has_bounds(bounds, proteins) {
        return Err(Refusal::Length);
    }
    contents_tested(bounds, letters)
}

// The tests of letters alone, of a protein or of a whole book: 1, and 2 at the first byte that is no letter.
pub fn letters_tested(letters: &[u8]) -> Result<(), Refusal>
    ensures { result ≡ all_letters_tested letters.now }
{
    if catalogue_book::too_many_letters(letters) {
        return Err(Refusal::Size);
    }
    catalogue_book::letters_tested(letters)
}
