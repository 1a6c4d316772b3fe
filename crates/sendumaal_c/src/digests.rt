// Digestion and reversal.
ghost use Rattle.std.specs.Prelude.{◌≡◌, [], ◌∷◌};
ghost use Rattle.records.specs.Outcome.{outcome};
ghost use Rattle.enzyme_spec.specs.Reversal.{reverse_outcome, reverse_record_outcome, letters_outcome};
ghost use Rattle.sendumaal_calls.specs.Calls.{tested_call, counted_call};
ghost use Rattle.sendumaal_calls.specs.DigestCalls.{digest_call};

#[unsafe(no_mangle)]
pub extern "C" fn sendumaal_letters_reverse(letters: &mut [u8], place: &mut usize) -> u32
    ensures { outcome result ((place.new ∷ []) ∷ letters.new ∷ []) ≡ tested_call (reverse_outcome letters.old) }
{
    sendumaal::sendumaal_letters_reverse(letters, place)
}

#[unsafe(no_mangle)]
pub extern "C" fn sendumaal_digest_reverse(bytes: &mut [u8], place: &mut usize) -> u32
    ensures { outcome result ((place.new ∷ []) ∷ bytes.new ∷ []) ≡ tested_call (reverse_record_outcome bytes.old) }
{
    sendumaal::sendumaal_digest_reverse(bytes, place)
}

#[unsafe(no_mangle)]
pub extern "C" fn sendumaal_digest_letters(
    letters: &[u8],
    bytes: &[u8],
    out: &mut [u8],
    count: &mut u32,
    place: &mut usize,
) -> u32
    ensures { outcome result ((place.new ∷ []) ∷ (count.new ∷ []) ∷ out.new ∷ []) ≡ counted_call (letters_outcome letters.now bytes.now out.old) count.old }
{
    sendumaal::sendumaal_digest_letters(letters, bytes, out, count, place)
}

#[unsafe(no_mangle)]
pub extern "C" fn sendumaal_digest(
    letters: &[u8],
    alphabet: u32,
    kind: u32,
    cleave: u32,
    skip: u32,
    side: u32,
    semi: u32,
    missed: u32,
    minimum: u32,
    maximum: u32,
    protein: u32,
    out: &mut [u8],
    count: &mut u32,
    place: &mut usize,
) -> u32
    ensures { outcome result ((place.new ∷ []) ∷ (count.new ∷ []) ∷ out.new ∷ []) ≡ digest_call (record { letters = letters.entry.now; alphabet = alphabet; kind = kind; cleave = cleave; skip = skip; side = side; semi = semi; missed = missed; minimum = minimum; maximum = maximum; protein = protein; out = out.old; count = count.old }) }
{
    sendumaal::sendumaal_digest(
        letters, alphabet, kind, cleave, skip, side, semi, missed, minimum, maximum, protein, out,
        count, place,
    )
}
