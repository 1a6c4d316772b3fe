// Sequence files.
ghost use Rattle.std.specs.Prelude.{◌≡◌, List, [], ◌∷◌};
ghost use Rattle.records.specs.Outcome.{outcome};
ghost use Rattle.sendumaal_calls.specs.FileCalls.{entry_call};

use sendumaal_calls::told_entry;

pub fn sendumaal_fasta_entry(
    bytes: &[u8],
    at: usize,
    name: &mut [u8],
    letters: &mut [u8],
    next: &mut usize,
    count: &mut u32,
    found: &mut u32,
    place: &mut usize,
) -> u32
    ensures { outcome result ((place.new ∷ []) ∷ (next.new ∷ []) ∷ (count.new ∷ []) ∷ (found.new ∷ []) ∷ name.new ∷ letters.new ∷ []) ≡ entry_call (record { bytes = bytes.entry.now; at = at; name = name.old; letters = letters.old; next = next.old; count = count.old; found = found.old }) }
{
    let answer = fasta::read_entry(bytes, at, name, letters);
    told_entry(answer, next, count, found, place)
}
