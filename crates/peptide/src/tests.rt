// What a peptide and its rules must be.
ghost use Rattle.std.specs.Prelude.{◌≡◌, ◌≤◌};
ghost use Rattle.peptide.specs.Peptides.{clear, tested_contents, tested_peptide};
ghost use Rattle.peptide.specs.Forms.{tested_forms};

use crate::making::Peptide;
use records::Refusal;

// Whether the places past the length are 0, and the position is one.
fn is_clear(p: Peptide) -> bool
    requires { p.len ≤ 64 }
    ensures { result ≡ clear p }
{
    let n = usize::from(p.len);
    peptide_slots::zero_from(p.letters, n) & peptide_slots::zero_from(p.ids, n) & (p.position <= 3)
}

// The letters, then what lies past them.
pub(crate) fn test_contents(p: Peptide) -> Result<(), Refusal>
    requires { p.len ≤ 64 }
    ensures { result ≡ tested_contents p }
{
    let n = usize::from(p.len);
    let bad = letters::first_bad(&p.letters[0..n]);
    if bad < n {
        return Err(Refusal::Letter(bad));
    }
    if is_clear(p) {
        Ok(())
    } else {
        Err(Refusal::Field(0))
    }
}

// The tests of a peptide alone.
pub(crate) fn test_peptide(p: Peptide) -> Result<(), Refusal>
    ensures { result ≡ tested_peptide p }
{
    if (p.len == 0) | (64 < p.len) {
        return Err(Refusal::Size);
    }
    test_contents(p)
}

// The tests before forms are listed.
pub(crate) fn test_forms(
    p: Peptide,
    variable: &[u8],
    fixed: &[u8],
    limit: u32,
) -> Result<(), Refusal>
    ensures { result ≡ tested_forms p variable.now fixed.now limit }
{
    if peptide_listing::too_large(usize::from(p.len), variable, fixed, limit) {
        return Err(Refusal::Size);
    }
    if peptide_listing::not_whole(variable, fixed) {
        return Err(Refusal::Length);
    }
    test_contents(p)?;
    peptide_listing::test_lists(variable, fixed)
}
