// Reversal of letters and of a digest record.
ghost use Rattle.std.specs.Prelude.{◌≡◌, [], ◌∷◌, ◌<◌, length};
ghost use Rattle.records.specs.Outcome.{outcome};
ghost use Rattle.letters.specs.Reversal.{reversed};
ghost use Rattle.enzyme_spec.specs.Reversal.{stretch_tested, record_tested, reverse_outcome, reverse_record_outcome};

use enzyme_keep::is_good;
use records::Refusal;

// Reverses all letters but the first and the last.
fn flip(letters: &mut [u8])
    requires { 0 < length letters.old }
    ensures { letters.new ≡ reversed letters.old }
{
    let n = letters.len();
    if 2 < n {
        letters[1..n - 1].reverse();
    }
}

fn stretch_tested(letters: &[u8]) -> Result<(), Refusal>
    ensures { result ≡ stretch_tested letters.now }
{
    let n = letters.len();
    if (n == 0) | (65536 < n) {
        return Err(Refusal::Size);
    }
    let bad = letters::first_bad(letters);
    if bad < n {
        return Err(Refusal::Letter(bad));
    }
    Ok(())
}

// Reverses all letters of a digest but the first and the last, and makes them capitals.
pub fn reverse_letters(letters: &mut [u8]) -> Result<(), Refusal>
    ensures { outcome result (letters.new ∷ []) ≡ reverse_outcome letters.old }
{
    stretch_tested(letters)?;
    letters::raise_all(letters);
    flip(letters);
    Ok(())
}

fn record_tested(bytes: &[u8]) -> Result<(), Refusal>
    ensures { result ≡ record_tested bytes.now }
{
    if bytes.len() != 20 {
        return Err(Refusal::Length);
    }
    if is_good(bytes) {
        Ok(())
    } else {
        Err(Refusal::Field(0))
    }
}

// Makes a digest record a decoy; a decoy stays as it was.
pub fn reverse_record(bytes: &mut [u8]) -> Result<(), Refusal>
    ensures { outcome result (bytes.new ∷ []) ≡ reverse_record_outcome bytes.old }
{
    record_tested(bytes)?;
    records::put_byte(bytes, 11, 1);
    Ok(())
}
