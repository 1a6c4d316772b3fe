// Peptides, which pass as letters and ids.
ghost use Rattle.std.specs.Prelude.{◌≡◌, List, [], ◌∷◌, ◌≤◌, length, take};
ghost use Rattle.records.specs.Outcome.{outcome};
ghost use Rattle.sendumaal_calls.specs.PeptideCalls.{peptide_of, tested_lengths, reverse_outcome, other_flag};

use peptide::Peptide;
use records::Refusal;

// The peptide of lent letters, as capitals, and ids, its contents untested.
pub fn peptide_of(
    letters: &[u8],
    ids: &[u8],
    nterm: u8,
    cterm: u8,
    position: u8,
    decoy: bool,
) -> Peptide
    requires { length letters.now ≤ 64 }
    ensures { result ≡ peptide_of letters.now ids.now nterm cterm position decoy }
{
    Peptide {
        letters: peptide_slots::raised(peptide_slots::window(letters, 0)),
        ids: peptide_slots::window(ids, 0),
        nterm,
        cterm,
        len: letters.len() as u8,
        position,
        decoy,
    }
}

// Stores the first bytes of an array, as many as the slice has.
fn put_back(out: &mut [u8], from: [u8; 64])
    requires { length out.old ≤ 64 }
    ensures { out.new ≡ take (length out.old) from }
{
    let n = out.len();
    out.copy_from_slice(&from[0..n]);
}

// Whether the letters are a peptide's, and the ids as many.
fn test_lengths(letters: &[u8], ids: &[u8]) -> Result<(), Refusal>
    ensures { result ≡ tested_lengths letters.now ids.now }
{
    let n = letters.len();
    if (n == 0) | (64 < n) {
        return Err(Refusal::Size);
    }
    if ids.len() == n {
        Ok(())
    } else {
        Err(Refusal::Length)
    }
}

// Reverses a peptide and stores it over the slices that it came from, if the tests pass, which stand in document 01's order:
// of the lengths, of the peptide, of its flag.
pub fn reverse(letters: &mut [u8], ids: &mut [u8], decoy: u32) -> Result<(), Refusal>
    ensures { outcome result (letters.new ∷ ids.new ∷ []) ≡ reverse_outcome letters.old ids.old decoy }
{
    test_lengths(letters, ids)?;
    let turned = peptide_of(letters, ids, 0, 0, 0, decoy == 1).reverse()?;
    if 1 < decoy {
        return Err(Refusal::Field(0));
    }
    put_back(letters, turned.letters);
    put_back(ids, turned.ids);
    Ok(())
}

// The other flag.
pub fn flipped(decoy: u32) -> u32
    ensures { result ≡ other_flag decoy }
{
    if decoy == 1 { 0 } else { 1 }
}
