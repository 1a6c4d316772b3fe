// The letters of a digest record.
ghost use Rattle.std.specs.Prelude.{◌≡◌, [], ◌∷◌, ◌≤◌, ◌<◌, length};
ghost use Rattle.records.specs.Outcome.{outcome};
ghost use Rattle.letters.specs.Reversal.{letters_of};
ghost use Rattle.records.specs.Room.{counted, singly};
ghost use Rattle.enzyme_spec.specs.Reversal.{spelling_tested, letters_outcome};

use enzyme_keep::is_good;
use records::Refusal;

// Writes a range's letters as capitals, a decoy's reversed, as far as there is room.
fn spell(part: &[u8], decoy: bool, out: &mut [u8]) -> Result<u32, Refusal>
    requires { length part.now ≤ 65536 }
    ensures { outcome result (out.new ∷ []) ≡ counted 1 65536 out.old (singly (letters_of decoy part.now)) }
{
    let room = records::room_for(out.len(), 1, 65536);
    for i in 0..part.len() {
        if room <= i {
            return Err(Refusal::Room);
        }
        out[i] = letters::letter_at(part, decoy, i);
    }
    Ok(part.len() as u32)
}

fn spelling_tested(letters: &[u8], bytes: &[u8]) -> Result<(), Refusal>
    ensures { result ≡ spelling_tested letters.now bytes.now }
{
    let n = letters.len();
    if 65536 < n {
        return Err(Refusal::Size);
    }
    if bytes.len() != 20 {
        return Err(Refusal::Length);
    }
    let bad = letters::first_bad(letters);
    if bad < n {
        return Err(Refusal::Letter(bad));
    }
    let end = records::u32_at(bytes, 4) as usize;
    if is_good(bytes) & (end <= n) {
        Ok(())
    } else {
        Err(Refusal::Field(0))
    }
}

// Writes the letters of a digest record, whose range counts from the protein's first letter, as capitals into out.
pub fn digest_letters(letters: &[u8], bytes: &[u8], out: &mut [u8]) -> Result<u32, Refusal>
    ensures { outcome result (out.new ∷ []) ≡ letters_outcome letters.now bytes.now out.old }
{
    spelling_tested(letters, bytes)?;
    let start = records::u32_at(bytes, 0) as usize;
    let end = records::u32_at(bytes, 4) as usize;
    let decoy = records::byte_at(bytes, 11) == 1;
    spell(&letters[start..end], decoy, out)
}
