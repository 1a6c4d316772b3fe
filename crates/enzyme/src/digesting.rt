// The digests of a protein, as records of a lent buffer.
ghost use Rattle.std.specs.Prelude.{◌≡◌, [], ◌∷◌, ◌≤◌, length};
ghost use Rattle.records.specs.Outcome.{outcome};
ghost use Rattle.records.specs.Room.{counted};
ghost use Rattle.letters.specs.Letters.{capitals};
ghost use Rattle.enzyme_spec.specs.Digestion.{digest_records, digest_outcome};

use enzyme_cuts::Enzyme;
use enzyme_keep::Terms;
use enzyme_spec::Settings;
use enzyme_tests::tested;
use letters::LetterSet;
use records::Refusal;

// The digests of letters that are in order, as capitals.
fn digest_passed(
    letters: &[u8],
    enzyme: Enzyme,
    missed: u8,
    terms: Terms,
    out: &mut [u8],
) -> Result<u32, Refusal>
    requires { (length letters.now ≤ 65536) × (missed ≤ 16) × (terms.maximum ≤ 65536) }
    ensures { outcome result (out.new ∷ []) ≡ counted 20 1048576 out.old (digest_records enzyme missed terms.minimum terms.maximum terms.protein (capitals letters.now)) }
{
    let Some(k) = enzyme_ways::offer_read(letters, enzyme, missed, terms, out) else {
        return Err(Refusal::Room);
    };
    let count = k as u32;
    Ok(count)
}

// Writes the digests of a protein as records into out.
pub fn digest(
    letters: &[u8],
    alphabet: LetterSet,
    enzyme: Enzyme,
    settings: Settings,
    protein: u32,
    out: &mut [u8],
) -> Result<u32, Refusal>
    ensures { outcome result (out.new ∷ []) ≡ digest_outcome letters.now alphabet enzyme settings protein out.old }
{
    tested(letters, alphabet, enzyme, settings)?;
    let terms = Terms {
        minimum: settings.minimum,
        maximum: settings.maximum,
        protein,
    };
    digest_passed(letters, enzyme, settings.missed, terms, out)
}
