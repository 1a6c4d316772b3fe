// The marks of an update.
ghost use Rattle.std.specs.Prelude.{◌≡◌, cond, List, ◌≤◌, ◌<◌, length, replicate, eqb};
ghost use Rattle.cover_joining.specs.Joining.{Forest, nodes};
ghost use Rattle.cover_spec.specs.Cover.{Edge};
ghost use Rattle.cover_edges.specs.Records.{edges_in};
ghost use Rattle.cover_touched.specs.Touching.{UpdateSized, PartsTell, Mixed};

use crate::touching::touch;
use cover_edges::Edges;
use cover_joining::lowest;
use records::clear;

fn picked(low: usize, made: u8, kept: u8) -> u8
    ensures { result ≡ cond (eqb low 0) made kept }
{
    if low == 0 { made } else { kept }
}

// The first k marks, where their group is not touched, become those given.
fn mix(given: &[u8], groups: usize, metas: usize, w: &mut [u32], k: usize, marks: &mut [u8])
    requires groups_bound { (groups ≤ 131072) × (metas ≤ 262144) × Forest w.old metas (nodes groups metas) }
    requires k_le_groups { (k ≤ groups) × (k ≤ length given.now) × (k ≤ length marks.old) }
    ensures { (old new : List Edge) → PartsTell old new groups metas w.old → Mixed old new given.now k marks.old marks.new }
{
    let size = 1 + groups + metas;
    for g in 0..k {
        let low = lowest(w, metas, size, 1 + g);
        marks[g] = picked(low, marks[g], given[g]);
    }
}

// Of the first k marks, which are the cover's, those of groups that the update does not touch become the ones given. The work slice is
// zeros then.
pub fn renew(
    old: &Edges,
    new: &Edges,
    groups: usize,
    metas: usize,
    given: &[u8],
    k: usize,
    marks: &mut [u8],
    w: &mut [u32],
)
    requires update_sized { UpdateSized old.now.bytes.now old.now.count new.now.bytes.now new.now.count groups metas (length w.old) }
    requires k_le_groups { (k ≤ groups) × (k ≤ length given.now) × (k ≤ length marks.old) }
    ensures mixed { Mixed (edges_in old.now) (edges_in new.now) given.now k marks.old marks.new }
    ensures w_after { w.new ≡ replicate (length w.old) 0 }
{
    touch(old, new, groups, metas, w);
    mix(given, groups, metas, w, k, marks);
    clear(w);
}
