// Peptides, which pass as letters and ids.
ghost use Rattle.std.specs.Prelude.{◌≡◌, List, [], ◌∷◌};
ghost use Rattle.peptide_mass.specs.Masses.{tested_part, weighed};
ghost use Rattle.records.specs.Outcome.{outcome};
ghost use Rattle.sendumaal_calls.specs.Calls.{test_call};
ghost use Rattle.sendumaal_calls.specs.PeptideCalls.{weight, weight_call, digest_weight, digest_mass_call, forms_call, reverse_call};

use peptide::Peptide;
use records::Refusal;
use sendumaal_calls::{counted, flipped, peptide_of, refused, reverse, told, too_large};

pub fn sendumaal_base_mass(
    letters: &[u8],
    masses: &[f32],
    water: f32,
    mass: &mut f32,
    place: &mut usize,
) -> u32
    ensures { weight result place.new mass.new ≡ weight_call (weighed letters.now masses.now water) mass.old }
{
    let answer = peptide::base_mass(letters, masses, water);
    if let Ok(m) = answer {
        *mass = m;
    }
    told(answer, place)
}

pub fn sendumaal_digest_mass(
    letters: &[u8],
    bytes: &[u8],
    masses: &[f32],
    water: f32,
    mass: &mut f32,
    position: &mut u32,
    place: &mut usize,
) -> u32
    ensures { digest_weight result place.new mass.new position.new ≡ digest_mass_call letters.now bytes.now masses.now water mass.old position.old }
{
    let answer = peptide::digest_mass(letters, bytes, masses, water);
    if let Ok(m) = answer {
        *mass = m;
        *position = u32::from(records::byte_at(bytes, 10));
    }
    told(answer, place)
}

pub fn sendumaal_peptide_test(
    letters: &[u8],
    masses: &[f32],
    position: u8,
    place: &mut usize,
) -> u32
    ensures { outcome result ((place.new ∷ []) ∷ []) ≡ test_call (tested_part letters.now masses.now position) }
{
    told(Peptide::of_part(letters, masses, position, false), place)
}

pub fn sendumaal_forms(
    letters: &[u8],
    ids: &[u8],
    nterm: u8,
    cterm: u8,
    position: u8,
    variable: &[u8],
    fixed: &[u8],
    limit: u32,
    cap: u32,
    out: &mut [u8],
    count: &mut u32,
    place: &mut usize,
) -> u32
    ensures { outcome result ((place.new ∷ []) ∷ (count.new ∷ []) ∷ out.new ∷ []) ≡ forms_call (record { letters = letters.entry.now; ids = ids.now; nterm = nterm; cterm = cterm; position = position; variable = variable.now; fixed = fixed.now; limit = limit; cap = cap; out = out.old; count = count.old }) }
{
    if too_large(letters.len(), variable, fixed, limit) {
        return refused(Refusal::Size, place);
    }
    if ids.len() != letters.len() {
        return refused(Refusal::Length, place);
    }
    let p = peptide_of(letters, ids, nterm, cterm, position, false);
    let answer = p.forms(variable, fixed, limit, cap, out);
    counted(answer, count, place)
}

pub fn sendumaal_peptide_reverse(
    letters: &mut [u8],
    ids: &mut [u8],
    decoy: &mut u32,
    place: &mut usize,
) -> u32
    ensures { outcome result ((place.new ∷ []) ∷ (decoy.new ∷ []) ∷ letters.new ∷ ids.new ∷ []) ≡ reverse_call letters.old ids.old decoy.old }
{
    let found = reverse(letters, ids, *decoy);
    if found.is_ok() {
        *decoy = flipped(*decoy);
    }
    told(found, place)
}
