// What lists must be: letters with the form of their ids, and rules.
ghost use Rattle.std.specs.Prelude.{◌≡◌};
ghost use Rattle.peptide_listing.specs.FormTests.{tested_form, too_large, not_whole, tested_lists};

use records::Refusal;

// Whether letters are a peptide's in number, and the form of their ids is one record.
pub fn test_form(letters: &[u8], form: &[u8]) -> Result<(), Refusal>
    ensures { result ≡ tested_form letters.now form.now }
{
    let n = letters.len();
    if (n == 0) | (64 < n) {
        return Err(Refusal::Size);
    }
    if form.len() != 66 {
        return Err(Refusal::Length);
    }
    Ok(())
}

pub fn too_large(len: usize, variable: &[u8], fixed: &[u8], limit: u32) -> bool
    ensures { result ≡ too_large len variable.now fixed.now limit }
{
    (len == 0) | (64 < len) | (16 < variable.len() / 8) | (32 < fixed.len() / 8) | (8 < limit)
}

pub fn not_whole(variable: &[u8], fixed: &[u8]) -> bool
    ensures { result ≡ not_whole variable.now fixed.now }
{
    !((variable.len() % 8 == 0) & (fixed.len() % 8 == 0))
}

// The records of the variable rules, then of the fixed ones.
pub fn test_lists(variable: &[u8], fixed: &[u8]) -> Result<(), Refusal>
    ensures { result ≡ tested_lists variable.now fixed.now }
{
    let v = modification_rules::first_bad_rule(variable, false);
    records::field_tested(v, variable.len() / 8)?;
    let f = modification_rules::first_bad_rule(fixed, true);
    records::field_tested(f, fixed.len() / 8)
}
