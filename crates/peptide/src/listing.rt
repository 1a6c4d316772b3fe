// The forms of a peptide.
ghost use Rattle.std.specs.Prelude.{◌≡◌, [], ◌∷◌, ◌≤◌, length};
ghost use Rattle.records.specs.Outcome.{outcome};
ghost use Rattle.records.specs.Room.{counted};
ghost use Rattle.peptide_forms.specs.Enumeration.{most_forms};
ghost use Rattle.peptide.specs.Forms.{forms_outcome};
ghost use Rattle.peptide.specs.PackedLaws.{packed_forms};

use crate::making::Peptide;
use crate::tests;
use records::Refusal;

// The forms of a peptide whose tests passed.
fn run(
    p: Peptide,
    variable: &[u8],
    fixed: &[u8],
    limit: u32,
    cap: u32,
    out: &mut [u8],
) -> Result<u32, Refusal>
    requires { (p.len ≤ 64) × (length variable.now ≤ 256) × (length fixed.now ≤ 256) × (limit ≤ 8) }
    ensures { outcome result (out.new ∷ []) ≡ counted 66 most_forms out.old (packed_forms p variable.now fixed.now limit cap) }
{
    let n = usize::from(p.len);
    let letters = peptide_slots::raised(p.letters);
    let table = peptide_listing::fixed_table(letters, n, p.position, fixed);
    let bare = peptide_slots::bare(p.nterm, p.cterm, p.ids);
    let mut sites = [0u16; 2112];
    let m = peptide_slots::collect_used(letters, n, p.position, variable, &mut sites);
    let most = limit as usize;
    peptide_listing::list_all(bare, table, &sites[0..m], variable, most, cap, out)
}

impl Peptide {
    // Writes the forms of the peptide as records of 66 bytes: of at most `limit` variable sites each, at most `cap` in all,
    // where all ones is no cap.
    pub fn forms(
        self,
        variable: &[u8],
        fixed: &[u8],
        limit: u32,
        cap: u32,
        out: &mut [u8],
    ) -> Result<u32, Refusal>
        ensures { outcome result (out.new ∷ []) ≡ forms_outcome self variable.now fixed.now limit cap out.old }
    {
        tests::test_forms(self, variable, fixed, limit)?;
        run(self, variable, fixed, limit, cap, out)
    }
}
