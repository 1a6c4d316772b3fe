// Digestion and reversal.
ghost use Rattle.std.specs.Prelude.{◌≡◌, List, [], ◌∷◌};
ghost use Rattle.records.specs.Outcome.{outcome};
ghost use Rattle.enzyme_spec.specs.Reversal.{reverse_outcome, reverse_record_outcome, letters_outcome};
ghost use Rattle.sendumaal_calls.specs.Calls.{tested_call, counted_call};
ghost use Rattle.sendumaal_calls.specs.DigestCalls.{digest_call};

use enzyme::Settings;
use letters::LetterSet;
use records::Refusal;
use sendumaal_calls::{counted, enzyme_numbered, is_enzyme, refused, told, told_field};

pub fn sendumaal_letters_reverse(letters: &mut [u8], place: &mut usize) -> u32
    ensures { outcome result ((place.new ∷ []) ∷ letters.new ∷ []) ≡ tested_call (reverse_outcome letters.old) }
{
    told(enzyme::reverse_letters(letters), place)
}

pub fn sendumaal_digest_reverse(bytes: &mut [u8], place: &mut usize) -> u32
    ensures { outcome result ((place.new ∷ []) ∷ bytes.new ∷ []) ≡ tested_call (reverse_record_outcome bytes.old) }
{
    told(enzyme::reverse_record(bytes), place)
}

pub fn sendumaal_digest_letters(
    letters: &[u8],
    bytes: &[u8],
    out: &mut [u8],
    count: &mut u32,
    place: &mut usize,
) -> u32
    ensures { outcome result ((place.new ∷ []) ∷ (count.new ∷ []) ∷ out.new ∷ []) ≡ counted_call (letters_outcome letters.now bytes.now out.old) count.old }
{
    counted(enzyme::digest_letters(letters, bytes, out), count, place)
}

pub fn sendumaal_digest(
    letters: &[u8],
    alphabet: u32,
    kind: u32,
    cleave: u32,
    skip: u32,
    side: u32,
    semi: u32,
    missed: u32,
    minimum: u32,
    maximum: u32,
    protein: u32,
    out: &mut [u8],
    count: &mut u32,
    place: &mut usize,
) -> u32
    ensures { outcome result ((place.new ∷ []) ∷ (count.new ∷ []) ∷ out.new ∷ []) ≡ digest_call (record { letters = letters.entry.now; alphabet = alphabet; kind = kind; cleave = cleave; skip = skip; side = side; semi = semi; missed = missed; minimum = minimum; maximum = maximum; protein = protein; out = out.old; count = count.old }) }
{
    if 16 < missed {
        return refused(Refusal::Size, place);
    }
    let cutter = enzyme_numbered(kind, cleave, skip, side, semi);
    let set = LetterSet { mask: alphabet };
    let settings = Settings {
        missed: missed as u8,
        minimum,
        maximum,
    };
    if is_enzyme(kind, side, semi) {
        let answer = enzyme::digest(letters, set, cutter, settings, protein, out);
        return counted(answer, count, place);
    }
    told_field(enzyme::tested(letters, set, cutter, settings), place)
}
