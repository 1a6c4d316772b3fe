// What fixed rules put into a form, and all forms.
ghost use Rattle.std.specs.Prelude.{◌≡◌, List, [], ◌∷◌, map, ◌≤◌, length, replicate};
ghost use Rattle.records.specs.Outcome.{outcome};
ghost use Rattle.peptide_slots.specs.Sites.{all_sites};
ghost use Rattle.peptide_slots.specs.Filling.{apply};
ghost use Rattle.peptide_forms.specs.Packed.{packed_choices};
ghost use Rattle.peptide_forms.specs.RunLaws.{quick};
ghost use Rattle.records.specs.Room.{counted};
ghost use Rattle.peptide_forms.specs.Enumeration.{most_forms};

use peptide_slots::Form;
use records::Refusal;

// What the fixed rules put into an empty form.
pub fn fixed_table(letters: [u8; 64], n: usize, position: u8, fixed: &[u8]) -> Form
    requires { (n ≤ 64) × (length fixed.now ≤ 256) }
    ensures { result.slots ≡ apply fixed.now (replicate 66 0) (all_sites letters n position fixed.now) }
{
    let mut sites = [0u16; 2112];
    let m = peptide_slots::collect(letters, n, position, fixed, &mut sites);
    let empty = peptide_slots::empty();
    peptide_slots::with_all(empty, &sites[0..m], fixed)
}

// All forms, the unchanged one first: it is written whatever the cap.
pub fn list_all(
    bare: Form,
    table: Form,
    sites: &[u16],
    rules: &[u8],
    limit: usize,
    cap: u32,
    out: &mut [u8],
) -> Result<u32, Refusal>
    requires { limit ≤ 8 }
    ensures { outcome result (out.new ∷ []) ≡ counted 66 most_forms out.old (map (quick bare.slots table.slots sites.now rules.now) (packed_choices sites.now rules.now limit cap)) }
{
    let most = cap as usize;
    let room = records::room_for(out.len(), 66, 1048576);
    if room == 0 {
        return Err(Refusal::Room);
    }
    let first = peptide_slots::overlaid(table, bare);
    peptide_slots::put_form(first, out, 0);
    match peptide_forms::list_forms(bare, table, sites, rules, limit, most, room, out) {
        Some(count) => Ok(count as u32),
        None => Err(Refusal::Room),
    }
}
