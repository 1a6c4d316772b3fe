// How far a choice of sites goes well: no slot twice, no rule more often than its limit.
ghost use Rattle.std.specs.Prelude.{◌≡◌, ◌≤◌, ◌<◌, take, get_or, length, if◌then◌else◌, Some, None};
ghost use Rattle.peptide_forms.specs.Passing.{free, uses};
ghost use Rattle.peptide_forms.specs.PassingLaws.{may_join};
ghost use Rattle.peptide_forms.specs.TurnLaws.{FineUpTo};

use peptide_choices::Choice;

// How often some places use a rule, or nothing where one of them has the slot.
fn uses_if_free(places: &[usize], slot: u16, rule: u16, sites: &[u16]) -> Option<u32>
    requires { length places.now ≤ 8 }
    ensures { result ≡ if free sites.now slot places.now then Some (uses sites.now rule places.now) else None }
{
    let mut free = true;
    let mut uses = 0;
    for place in places {
        let site = peptide_slots::site_at(sites, *place);
        free &= site % 128 != slot;
        uses += u32::from(site / 128 == rule);
    }
    free.then_some(uses)
}

// Whether a place may join those before it.
fn joins(before: &[usize], place: usize, sites: &[u16], rules: &[u8]) -> bool
    requires { length before.now ≤ 8 }
    ensures { result ≡ may_join sites.now rules.now before.now place }
{
    let site = peptide_slots::site_at(sites, place);
    let rule = site / 128;
    let limit = records::u32_at(rules, usize::from(rule) * 8 + 4);
    match uses_if_free(before, site % 128, rule, sites) {
        Some(uses) => uses < limit,
        None => false,
    }
}

// How many places of a choice go well together: all, if the choice passes.
pub(crate) fn reach(c: Choice, sites: &[u16], rules: &[u8]) -> usize
    requires { c.n ≤ 8 }
    ensures { FineUpTo sites.now rules.now (take c.n c.at) result }
{
    for j in 0..c.n {
        if !joins(&c.at[0..j], c.at[j], sites, rules) {
            return j;
        }
    }
    c.n
}
