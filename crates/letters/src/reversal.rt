// The letters of a range, and a decoy's.
ghost use Rattle.std.specs.Prelude.{◌≡◌, slice_index};
ghost use Rattle.letters.specs.Reversal.{letters_of};

use crate::stretch::capital;

// Letter i of a range's letters, of a decoy's reversed, as a capital; 0 past the end.
pub fn letter_at(part: &[u8], decoy: bool, i: usize) -> u8
    ensures { result ≡ slice_index (letters_of decoy part.now) i }
{
    let n = part.len();
    if n <= i {
        return 0;
    }
    if decoy & (0 < i) & (i + 1 < n) {
        capital(part[n - 1 - i])
    } else {
        capital(part[i])
    }
}
