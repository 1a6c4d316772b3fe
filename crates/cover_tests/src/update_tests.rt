// The tests of an update, in document 01's order.
ghost use Rattle.std.specs.Prelude.{◌≡◌, ◌/◌, ◌≤◌, length};
ghost use Rattle.cover_tests.specs.Testing.{either_too_large, lengths_wrong, contents_tested, update_tested};

use crate::tests::{edges_tested, too_large, work_needed};
use cover_edges::first_bad_mark;
use records::{Refusal, field_tested};

fn either_too_large(on: usize, nn: usize, groups: usize, metas: usize) -> bool
    ensures { result ≡ either_too_large on nn groups metas }
{
    too_large(on, groups, metas) || too_large(nn, groups, metas)
}

fn lengths_wrong(old: &[u8], new: &[u8], groups: usize, given: &[u8]) -> bool
    ensures { result ≡ lengths_wrong old.now new.now groups given.now }
{
    old.len() % 8 != 0 || new.len() % 8 != 0 || given.len() != groups
}

// The first refusal for what the lists hold.
fn contents(
    old: &[u8],
    new: &[u8],
    groups: usize,
    metas: usize,
    given: &[u8],
) -> Result<(), Refusal>
    requires { (length old.now / 8 ≤ 1048576) × (length new.now / 8 ≤ 1048576) }
    ensures { result ≡ contents_tested old.now new.now groups metas given.now }
{
    edges_tested(old, groups, metas)?;
    edges_tested(new, groups, metas)?;
    field_tested(first_bad_mark(given), given.len())
}

// The first refusal that applies before the update is made, where the work slice has so many words.
pub fn update_tested(
    old: &[u8],
    new: &[u8],
    groups: usize,
    metas: usize,
    given: &[u8],
    words: usize,
) -> Result<(), Refusal>
    ensures { result ≡ update_tested old.now new.now groups metas given.now words }
{
    let on = old.len() / 8;
    let nn = new.len() / 8;
    if either_too_large(on, nn, groups, metas) {
        return Err(Refusal::Size);
    }
    if lengths_wrong(old, new, groups, given) {
        return Err(Refusal::Length);
    }
    if words < work_needed(on + nn, groups, metas) {
        return Err(Refusal::Work);
    }
    contents(old, new, groups, metas, given)
}
