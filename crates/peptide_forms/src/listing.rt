// The listing of the forms after the unchanged one.
ghost use Rattle.std.specs.Prelude.{◌≡◌, map, ◌≤◌, length, take};
ghost use Rattle.records.specs.Room.{room_of};
ghost use Rattle.peptide_choices.specs.Choices.{by_size};
ghost use Rattle.peptide_slots.specs.Filling.{apply};
ghost use Rattle.peptide_forms.specs.Passing.{packed_passes};
ghost use Rattle.peptide_forms.specs.Enumeration.{most_forms};
ghost use Rattle.peptide_forms.specs.Packed.{packed_chosen};
ghost use Rattle.peptide_forms.specs.RunLaws.{todo, quick, Finished};

use crate::passing;
use peptide_choices::Choice;
use peptide_slots::Form;

// The chosen sites, one after another.
fn with_choice(form: Form, c: Choice, sites: &[u16], rules: &[u8]) -> Form
    requires { c.n ≤ 8 }
    ensures { result.slots ≡ apply rules.now form.slots (packed_chosen sites.now (take c.n c.at)) }
{
    let mut out = form;
    for place in &c.at[0..c.n] {
        let site = peptide_slots::site_at(sites, *place);
        out = peptide_slots::fill_site(out, site, rules);
    }
    out
}

// The form of a choice: its variable sites, then what the table of the fixed rules has.
fn made(bare: Form, table: Form, c: Choice, sites: &[u16], rules: &[u8]) -> Form
    requires { c.n ≤ 8 }
    ensures { result.slots ≡ quick bare.slots table.slots sites.now rules.now (take c.n c.at) }
{
    let picked = with_choice(bare, c, sites, rules);
    peptide_slots::overlaid(table, picked)
}

// Writes the forms of all choices that pass behind the unchanged one, which stands at place 0 already, and answers how many
// stand there, or nothing where one has no room. Where a choice
// clashes, the counter skips all that begin with the places that do. After a size of which no choice passes none of a
// larger one does.
pub fn list_forms(
    bare: Form,
    table: Form,
    sites: &[u16],
    rules: &[u8],
    limit: usize,
    cap: usize,
    room: usize,
    out: &mut [u8],
) -> Option<usize>
    requires { (limit ≤ 8) × (1 ≤ room) × (room ≡ room_of 66 most_forms out.old) }
    ensures { Finished room (map (quick bare.slots table.slots sites.now rules.now) (todo (packed_passes sites.now rules.now) cap 1 (by_size (length sites.now) 1 limit))) out.old out.new result }
{
    let m = sites.len();
    let mut count = 1;
    for n in 1..=limit {
        let had = count;
        let mut left = Choice::first(n, m);
        while let Some(c) = left {
            let kept = passing::reach(c, sites, rules);
            if kept == n {
                if cap <= count {
                    return Some(count);
                }
                if room <= count {
                    return None;
                }
                let form = made(bare, table, c, sites, rules);
                peptide_slots::put_form(form, out, 66 * count);
                count += 1;
            }
            left = c.next_past(kept);
        }
        if count == had {
            break;
        }
    }
    Some(count)
}
