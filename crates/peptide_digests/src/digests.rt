// What a digest must be to become a peptide.
ghost use Rattle.std.specs.Prelude.{◌≡◌, ◌<◌, length, IfSome};
ghost use Rattle.std.specs.Option.{unwrap_or};
ghost use Rattle.peptide_digests.specs.DigestTests.{too_long, not_whole, unfit, first_unfit, tested_digest};

use enzyme_keep::is_good;
use records::Refusal;

fn too_long(letters: &[u8], bytes: &[u8]) -> bool
    ensures { result ≡ too_long letters.now bytes.now }
{
    let start = records::u32_at(bytes, 0) as usize;
    let end = records::u32_at(bytes, 4) as usize;
    (65536 < letters.len()) | ((bytes.len() == 20) & (start + 64 < end))
}

fn not_whole(bytes: &[u8], masses: &[f32]) -> bool
    ensures { result ≡ not_whole bytes.now masses.now }
{
    !((bytes.len() == 20) & (masses.len() == 26))
}

// Whether a byte is no letter or, inside the range, a letter of mass zero.
fn is_unfit(masses: &[f32], inside: bool, b: u8) -> bool
    requires { length masses.now ≡ 26 }
    ensures { result ≡ unfit masses.now inside b }
{
    if inside {
        peptide_mass::has_no_mass(masses, b)
    } else {
        !letters::is_letter(b)
    }
}

// The index of the first such byte.
fn first_unfit(letters: &[u8], masses: &[f32], start: usize, end: usize) -> Option<usize>
    requires { length masses.now ≡ 26 }
    ensures first { unwrap_or result (length letters.now) ≡ first_unfit masses.now start end letters.now }
    ensures within { IfSome result (λ bad. bad < length letters.now) }
{
    for (i, b) in letters.iter().enumerate() {
        let inside = (start <= i) & (i < end);
        if is_unfit(masses, inside, *b) {
            return Some(i);
        }
    }
    None
}

// The tests of a digest that becomes a peptide.
pub fn test_digest(letters: &[u8], bytes: &[u8], masses: &[f32]) -> Result<(), Refusal>
    ensures { result ≡ tested_digest letters.now bytes.now masses.now }
{
    if too_long(letters, bytes) {
        return Err(Refusal::Size);
    }
    if not_whole(bytes, masses) {
        return Err(Refusal::Length);
    }
    let start = records::u32_at(bytes, 0) as usize;
    let end = records::u32_at(bytes, 4) as usize;
    if let Some(bad) = first_unfit(letters, masses, start, end) {
        return Err(Refusal::Letter(bad));
    }
    if is_good(bytes) & (end <= letters.len()) {
        Ok(())
    } else {
        Err(Refusal::Field(0))
    }
}
