// The tests of a cover, in document 01's order.
ghost use Rattle.std.specs.Prelude.{◌≡◌, ◌/◌, ◌≤◌, length};
ghost use Rattle.cover_tests.specs.Testing.{too_large, edges_tested, cover_tested};
ghost use Rattle.cover_spec.specs.Marks.{work_needed};

use cover_edges::first_bad_edge;
use records::{Refusal, field_tested};

pub(crate) fn too_large(n: usize, groups: usize, metas: usize) -> bool
    ensures { result ≡ too_large n groups metas }
{
    131072 < groups || 262144 < metas || 1048576 < n
}

pub(crate) fn work_needed(n: usize, groups: usize, metas: usize) -> usize
    requires { (groups ≤ 131072) × (metas ≤ 262144) × (n ≤ 2097152) }
    ensures { result ≡ work_needed groups metas n }
{
    4 * groups + 4 * metas + 6 * n
}

// The first record whose group or meta-peptide is not below its count.
pub(crate) fn edges_tested(edges: &[u8], groups: usize, metas: usize) -> Result<(), Refusal>
    requires { length edges.now / 8 ≤ 1048576 }
    ensures { result ≡ edges_tested edges.now groups metas }
{
    let bad = first_bad_edge(edges, groups, metas);
    field_tested(bad, edges.len() / 8)
}

// The first refusal that applies before the cover is made, where the work slice has so many words.
pub fn cover_tested(edges: &[u8], groups: usize, metas: usize, words: usize) -> Result<(), Refusal>
    ensures { result ≡ cover_tested edges.now groups metas words }
{
    let n = edges.len() / 8;
    if too_large(n, groups, metas) {
        return Err(Refusal::Size);
    }
    if edges.len() % 8 != 0 {
        return Err(Refusal::Length);
    }
    if words < work_needed(n, groups, metas) {
        return Err(Refusal::Work);
    }
    edges_tested(edges, groups, metas)
}
