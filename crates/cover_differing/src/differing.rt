// Whether a group's edges differ: its old edges are counted, meta-peptide by meta-peptide, in the table at 0, its new edges are taken
// off, and what is left is looked at and cleared along the old ones.
ghost use Rattle.std.specs.Prelude.{◌≡◌, ◌<◌};
ghost use Rattle.cover_differing.specs.Walking.{differing, GroupsLinked};
ghost use Rattle.cover_edges.specs.Records.{edges_in};

use crate::links::Links;
use crate::passing::{Pass, go_along};
use cover_edges::Edges;

// Whether some edge of group g stands a different number of times in the two lists. The work slice is then as it was.
pub fn differs_at(
    old: &Edges,
    new: &Edges,
    groups: usize,
    metas: usize,
    w: &mut [u32],
    g: usize,
) -> bool
    requires groups_linked { GroupsLinked old.now.bytes.now old.now.count new.now.bytes.now new.now.count groups metas w.old }
    requires g_lt_groups { g < groups }
    ensures value { result ≡ differing (edges_in old.now) (edges_in new.now) g }
    ensures w_unchanged { w.new ≡ w.old }
{
    let ho = metas + (1 + groups + metas);
    let hn = ho + groups;
    let no = hn + groups;
    let of_old = Links {
        groups,
        metas,
        records: old.count,
        heads: ho,
        nexts: no,
    };
    let of_new = Links {
        groups,
        metas,
        records: new.count,
        heads: hn,
        nexts: no + old.count,
    };
    go_along(old, w, of_old, g, Pass::Up);
    let lack = go_along(new, w, of_new, g, Pass::Off);
    let left = go_along(old, w, of_old, g, Pass::Clear);
    lack | left
}
