// The base mass.
ghost use Rattle.std.specs.Prelude.{◌≡◌, ℕ, ◌≤◌, ◌<◌, length, get_or, IfSome};
ghost use Rattle.std.specs.Option.{unwrap_or};
ghost use Rattle.peptide_mass.specs.Masses.{no_mass, first_no_mass, add_all, tested_letters, tested_part, weighed};
ghost use Rattle.letters.specs.Letters.{capital, is_letter};

use records::Refusal;

// Whether a byte is no letter, or one of mass zero.
pub fn has_no_mass(masses: &[f32], b: u8) -> bool
    requires { length masses.now ≡ 26 }
    ensures { result ≡ no_mass masses.now b }
{
    if letters::is_letter(b) {
        let k = usize::from(letters::capital(b) - 65);
        return masses[k] == 0.0;
    }
    true
}

// The index of the first such byte.
fn first_no_mass(letters: &[u8], masses: &[f32]) -> Option<usize>
    requires { length masses.now ≡ 26 }
    ensures first { unwrap_or result (length letters.now) ≡ first_no_mass masses.now letters.now }
    ensures within { IfSome result (λ bad. bad < length letters.now) }
{
    for (i, b) in letters.iter().enumerate() {
        if has_no_mass(masses, *b) {
            return Some(i);
        }
    }
    None
}

// The tests of letters that are weighed.
fn test_letters(letters: &[u8], masses: &[f32]) -> Result<(), Refusal>
    ensures { result ≡ tested_letters letters.now masses.now }
{
    let n = letters.len();
    if (n == 0) | (64 < n) {
        return Err(Refusal::Size);
    }
    if masses.len() != 26 {
        return Err(Refusal::Length);
    }
    match first_no_mass(letters, masses) {
        Some(bad) => Err(Refusal::Letter(bad)),
        None => Ok(()),
    }
}

// The tests of a part of a protein that becomes a peptide.
pub fn test_part(part: &[u8], masses: &[f32], position: u8) -> Result<(), Refusal>
    ensures { result ≡ tested_part part.now masses.now position }
{
    test_letters(part, masses)?;
    if position <= 3 {
        Ok(())
    } else {
        Err(Refusal::Field(0))
    }
}

// Water, then each letter's mass, added left to right in f32.
fn sum(letters: &[u8], masses: &[f32], water: f32) -> f32
    requires masses_len { length masses.now ≡ 26 }
    requires by_index { (i : ℕ) → i < length letters.now → (65 ≤ capital (get_or letters.now i 0)) × (capital (get_or letters.now i 0) ≤ 90) }
    ensures { result ≡ add_all masses.now water letters.now }
{
    let mut mass = water;
    for b in letters {
        let k = usize::from(letters::capital(*b) - 65);
        mass = mass + masses[k];
    }
    mass
}

// The base mass of a peptide's letters, with the masses of A to Z.
pub fn base_mass(letters: &[u8], masses: &[f32], water: f32) -> Result<f32, Refusal>
    ensures { result ≡ weighed letters.now masses.now water }
{
    test_letters(letters, masses)?;
    Ok(sum(letters, masses, water))
}
