// The run over edges.
ghost use Rattle.std.specs.Prelude.{ℕ, ◌+◌, ◌*◌, ◌<◌, ◌≤◌, ◌≡◌, eqb, get_or, length};
ghost use Rattle.cover_spec.specs.Cover.{cover};
ghost use Rattle.cover_edges.specs.Records.{edges_in};
ghost use Rattle.cover_edges.specs.RangeLaws.{InRange};

use crate::walking::descend;
use cover_edges::Edges;
use cover_levels::prepare;
use cover_tables::Areas;

// The marks of the cover, from w[groups + metas] on; there are edges.
pub(crate) fn run(edges: &Edges, w: &mut [u32], groups: usize, metas: usize)
    requires { InRange edges.now.bytes.now edges.now.count groups metas × (0 < edges.now.count) × (edges.now.count ≤ 1048576) × (4 * groups + 2 * metas + 4 * edges.now.count + 3 ≤ length w.old) × (4 * groups + 2 * metas + 4 * edges.now.count + 3 ≤ 4294967295) }
    ensures { (g : ℕ) → g < groups → eqb (get_or w.new (groups + metas + g) 0) 1 ≡ cover groups (edges_in edges.now) g }
{
    let ge = groups + metas + groups;
    let go = ge + edges.count + edges.count + 1;
    let mo = go + groups + 1;
    let gm = mo + metas + 1;
    let mg = gm + edges.count;
    let od = mg + edges.count;
    let areas = Areas {
        groups: groups,
        metas: metas,
        ge: ge,
        go: go,
        mo: mo,
        gm: gm,
        mg: mg,
        od: od,
    };
    prepare(edges, w, areas);
    descend(edges, w, areas, edges.count);
}
