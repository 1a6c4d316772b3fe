// Forms by value.
ghost use Rattle.std.specs.Prelude.{◌≡◌, ◌∷◌, ◌+◌, ◌≤◌, length, replicate};
ghost use Rattle.std.proofs.lemmas.List.Edits.{sets};
ghost use Rattle.peptide_slots.specs.Filling.{fill_site, apply};
ghost use Rattle.peptide_slots.specs.Overlays.{overlay};

use crate::hits;

// The N-terminal id, the C-terminal id, 64 residue ids; 0 is none.
#[derive(Clone, Copy)]
pub struct Form {
    pub slots: [u8; 66],
}

// No ids.
pub fn empty() -> Form
    ensures { result.slots ≡ replicate 66 0 }
{
    Form { slots: [0; 66] }
}

// The ids that a peptide has.
pub fn bare(nterm: u8, cterm: u8, ids: [u8; 64]) -> Form
    ensures { result.slots ≡ nterm ∷ cterm ∷ ids }
{
    let mut slots = [0; 66];
    slots[0] = nterm;
    slots[1] = cterm;
    slots[2..66].copy_from_slice(&ids);
    Form { slots }
}

// A site's slot takes its rule's id, unless it is filled.
pub fn fill_site(form: Form, site: u16, rules: &[u8]) -> Form
    ensures { result.slots ≡ fill_site rules.now form.slots site }
{
    let slot = usize::from(site % 128);
    let rule = usize::from(site / 128);
    let id = records::byte_at(rules, rule * 8 + 2);
    let mut slots = form.slots;
    if slot < 66 {
        slots[slot] = hits::filled(id, slots[slot]);
    }
    Form { slots }
}

// The sites of rules, one after another.
pub fn with_all(form: Form, sites: &[u16], rules: &[u8]) -> Form
    ensures { result.slots ≡ apply rules.now form.slots sites.now }
{
    let mut out = form;
    for site in sites {
        out = fill_site(out, *site, rules);
    }
    out
}

// Each empty slot takes what the table has for it.
pub fn overlaid(table: Form, form: Form) -> Form
    ensures { result.slots ≡ overlay table.slots form.slots }
{
    let mut slots = form.slots;
    for k in 0..66 {
        slots[k] = hits::filled(table.slots[k], form.slots[k]);
    }
    Form { slots }
}

// A form's record, stored from a place on.
pub fn put_form(form: Form, out: &mut [u8], from: usize)
    requires { from + 66 ≤ length out.old }
    ensures { out.new ≡ sets out.old from form.slots }
{
    out[from..from + 66].copy_from_slice(&form.slots);
}
