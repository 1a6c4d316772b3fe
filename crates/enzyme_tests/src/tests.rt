// The tests of a digestion, in document 01's order.
ghost use Rattle.std.specs.Prelude.{◌≡◌};
ghost use Rattle.enzyme_spec.specs.Digestion.{too_large, in_alphabet, cleave_of, bad_sets, tested};

use enzyme_cuts::{Enzyme, Kind};
use enzyme_spec::Settings;
use letters::LetterSet;
use records::Refusal;

fn too_large(letters: &[u8], settings: Settings) -> bool
    ensures { result ≡ too_large letters.now settings }
{
    (65536 < letters.len())
        | (16 < settings.missed)
        | (65536 < settings.minimum)
        | (65536 < settings.maximum)
}

fn in_alphabet(set: LetterSet, alphabet: LetterSet) -> bool
    ensures { result ≡ in_alphabet set alphabet }
{
    set.is_proper() & set.is_subset(alphabet)
}

fn cleave_of(kind: Kind) -> LetterSet
    ensures { result ≡ cleave_of kind }
{
    match kind {
        Kind::None | Kind::End => LetterSet::EMPTY,
        Kind::Set(cleave) => cleave,
    }
}

fn bad_sets(enzyme: Enzyme, alphabet: LetterSet) -> bool
    ensures { result ≡ bad_sets enzyme alphabet }
{
    let kind = enzyme.kind;
    let skip = enzyme.skip;
    let cleave = cleave_of(kind);
    !(alphabet.is_proper() & in_alphabet(cleave, alphabet) & in_alphabet(skip, alphabet))
}

// The first refusal that applies before the digests are written.
pub fn tested(
    letters: &[u8],
    alphabet: LetterSet,
    enzyme: Enzyme,
    settings: Settings,
) -> Result<(), Refusal>
    ensures { result ≡ tested letters.now alphabet enzyme settings }
{
    if too_large(letters, settings) {
        return Err(Refusal::Size);
    }
    if bad_sets(enzyme, alphabet) {
        return Err(Refusal::Alphabet);
    }
    let bad = letters::first_bad(letters);
    if bad < letters.len() {
        return Err(Refusal::Letter(bad));
    }
    Ok(())
}
