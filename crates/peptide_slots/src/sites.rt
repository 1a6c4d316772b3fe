// The sites of rules, as numbers: 128 x the rule's place in its list + the slot.
ghost use Rattle.std.specs.Prelude.{◌≡◌, ◌+◌, ◌≤◌, ◌<◌, length, get_or, take};
ghost use Rattle.peptide_slots.specs.Sites.{if_hit, places_of, slot_numbers, all_sites};
ghost use Rattle.peptide_slots.specs.WroteLaws.{Wrote};
ghost use Rattle.peptide_slots.specs.Used.{used};
ghost use Rattle.peptide_slots.specs.UsedLaws.{UsedFirst};

use crate::hits::Rule;

// The site at a place of a list; 0 past its end.
pub fn site_at(sites: &[u16], k: usize) -> u16
    ensures { result ≡ get_or sites.now k 0 }
{
    sites.get(k).copied().unwrap_or(0)
}

// Stores v at the place, and answers the next place, where `hit` is set.
fn put_if(out: &mut [u16], at: usize, hit: bool, v: u16) -> usize
    requires { at < length out.old }
    ensures { Wrote out.old at (if_hit hit v) out.new result }
{
    if hit {
        out[at] = v;
        return at + 1;
    }
    at
}

// The residues that a rule hits, written from `at` on.
fn push_places(rule: Rule, letters: [u8; 64], n: usize, out: &mut [u16], at: usize) -> usize
    requires { (n ≤ 64) × (rule.base ≤ 4096) × (at + n ≤ length out.old) }
    ensures { Wrote out.old at (places_of letters n rule.kind rule.position rule.letter rule.base) out.new result }
{
    let mut next = at;
    for k in 0..n {
        let slot = (k + 2) as u16;
        next = put_if(out, next, rule.hits_at(n, k, letters[k]), rule.base + slot);
    }
    next
}

// The slots that a rule hits, written from `at` on: a rule without a letter hits a terminal slot, one with a letter residues.
fn push_slots(rule: Rule, letters: [u8; 64], n: usize, out: &mut [u16], at: usize) -> usize
    requires { (n ≤ 64) × (rule.base ≤ 4096) × (at + 66 ≤ length out.old) }
    ensures { Wrote out.old at (slot_numbers letters n rule.kind rule.position rule.letter rule.base) out.new result }
{
    let bare = rule.letter == 0;
    let first = put_if(out, at, bare & rule.at_first(), rule.base);
    let second = put_if(out, first, bare & rule.at_last(), rule.base + 1);
    push_places(rule, letters, n, out, second)
}

// The sites of all rules, in order.
pub fn collect(letters: [u8; 64], n: usize, position: u8, rules: &[u8], out: &mut [u16]) -> usize
    requires { (n ≤ 64) × (length rules.now ≤ 256) × (2112 ≤ length out.old) }
    ensures { Wrote out.old 0 (all_sites letters n position rules.now) out.new result }
{
    let mut at = 0;
    for r in 0..rules.len() / 8 {
        let rule = Rule {
            kind: rules[r * 8],
            position,
            letter: rules[r * 8 + 1],
            base: r as u16 * 128,
        };
        at = push_slots(rule, letters, n, out, at);
    }
    at
}

// Leaves out, of the first m sites, those of rules whose limit is 0, and answers how many stay: a choice with such a site
// never passes.
fn keep_used(rules: &[u8], m: usize, out: &mut [u16]) -> usize
    requires { m ≤ length out.old }
    ensures { UsedFirst rules.now out.old out.new m result }
{
    let mut next = 0;
    for i in 0..m {
        let site = out[i];
        let rule = usize::from(site / 128);
        let limit = records::u32_at(rules, rule * 8 + 4);
        next = put_if(out, next, limit != 0, site);
    }
    next
}

// The sites of the rules that may be used at all, in order.
pub fn collect_used(
    letters: [u8; 64],
    n: usize,
    position: u8,
    rules: &[u8],
    out: &mut [u16],
) -> usize
    requires { (n ≤ 64) × (length rules.now ≤ 256) × (2112 ≤ length out.old) }
    ensures { (result ≤ 2112) × (take result out.new ≡ used rules.now (all_sites letters n position rules.now)) }
{
    let m = collect(letters, n, position, rules, out);
    keep_used(rules, m, out)
}
