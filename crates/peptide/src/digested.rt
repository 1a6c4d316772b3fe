// Peptides of digest records.
ghost use Rattle.std.specs.Prelude.{◌≡◌, ◌≤◌, length};
ghost use Rattle.peptide.specs.Digested.{of_range, made_of_digest, weighed_digest};

use crate::making;
use crate::making::Peptide;
use records::Refusal;

// The peptide of a range's letters; a decoy is reversed.
fn of_range(part: &[u8], position: u8, decoy: bool) -> Peptide
    requires { length part.now ≤ 64 }
    ensures { result ≡ of_range part.now position decoy }
{
    let peptide = making::given(part, &[], position, false);
    if decoy {
        making::turned(peptide)
    } else {
        peptide
    }
}

impl Peptide {
    // The unmodified peptide of a digest record, whose range counts from the protein's first letter. Masses are those of A
    // to Z.
    pub fn of_digest(letters: &[u8], bytes: &[u8], masses: &[f32]) -> Result<Peptide, Refusal>
        ensures { result ≡ made_of_digest letters.now bytes.now masses.now }
    {
        peptide_digests::test_digest(letters, bytes, masses)?;
        let start = records::u32_at(bytes, 0) as usize;
        let end = records::u32_at(bytes, 4) as usize;
        let position = records::byte_at(bytes, 10);
        let decoy = records::byte_at(bytes, 11) == 1;
        Ok(of_range(&letters[start..end], position, decoy))
    }
}

// The base mass of the peptide of a digest record.
pub fn digest_mass(letters: &[u8], bytes: &[u8], masses: &[f32], water: f32) -> Result<f32, Refusal>
    ensures { result ≡ weighed_digest letters.now bytes.now masses.now water }
{
    let peptide = Peptide::of_digest(letters, bytes, masses)?;
    let n = usize::from(peptide.len);
    peptide_mass::base_mass(&peptide.letters[0..n], masses, water)
}
