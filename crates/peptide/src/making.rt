// The peptide by value.
ghost use Rattle.std.specs.Prelude.{◌≡◌, [], ◌≤◌, length};
ghost use Rattle.peptide_mass.specs.Masses.{tested_part};
ghost use Rattle.peptide.specs.Peptides.{tested_peptide, reversed_peptide, peptide_from, no_peptide, made_or, made_of_form};

use crate::tests;
use records::Refusal;

// Its letters and the ids of its residues, of which the first len count; the ids of its ends; its place in the protein. An
// id of 0 is none.
#[derive(Clone, Copy)]
pub struct Peptide {
    pub letters: [u8; 64],
    pub ids: [u8; 64],
    pub nterm: u8,
    pub cterm: u8,
    pub len: u8,
    pub position: u8,
    pub decoy: bool,
}

// The peptide of some letters, as capitals, with the ids of a form, its contents untested.
pub(crate) fn given(letters: &[u8], form: &[u8], position: u8, decoy: bool) -> Peptide
    requires { length letters.now ≤ 64 }
    ensures { result ≡ peptide_from letters.now form.now position decoy }
{
    Peptide {
        letters: peptide_slots::raised(peptide_slots::window(letters, 0)),
        ids: peptide_slots::window(form, 2),
        nterm: records::byte_at(form, 0),
        cterm: records::byte_at(form, 1),
        len: letters.len() as u8,
        position,
        decoy,
    }
}

// A peptide reversed, its contents untested: the inner letters and residue ids, the ends as they are, the decoy flag flipped.
pub(crate) fn turned(p: Peptide) -> Peptide
    requires { p.len ≤ 64 }
    ensures { result ≡ reversed_peptide p }
{
    let n = usize::from(p.len);
    Peptide {
        letters: peptide_slots::mirrored(p.letters, n),
        ids: peptide_slots::mirrored(p.ids, n),
        decoy: !p.decoy,
        ..p
    }
}

impl Peptide {
    // The peptide of some letters with the ids of a form, one record of 66 bytes.
    pub fn of_form(
        letters: &[u8],
        form: &[u8],
        position: u8,
        decoy: bool,
    ) -> Result<Peptide, Refusal>
        ensures { result ≡ made_of_form letters.now form.now position decoy }
    {
        peptide_listing::test_form(letters, form)?;
        let peptide = given(letters, form, position, decoy);
        tests::test_contents(peptide)?;
        Ok(peptide)
    }

    // The unmodified peptide of a part of a protein, such as `&protein[start..end]`. Masses are those of A to Z.
    pub fn of_part(
        part: &[u8],
        masses: &[f32],
        position: u8,
        decoy: bool,
    ) -> Result<Peptide, Refusal>
        ensures { result ≡ made_or (tested_part part.now masses.now position) (peptide_from part.now [] position decoy) no_peptide }
    {
        peptide_mass::test_part(part, masses, position)?;
        Ok(given(part, &[], position, decoy))
    }

    // The inner letters and residue ids reversed, the ends as they are, the decoy flag flipped.
    pub fn reverse(self) -> Result<Peptide, Refusal>
        ensures { result ≡ made_or (tested_peptide self) (reversed_peptide self) self }
    {
        tests::test_peptide(self)?;
        Ok(turned(self))
    }
}
