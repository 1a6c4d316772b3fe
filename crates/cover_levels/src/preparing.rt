// All tables, and the first pass.
ghost use Rattle.cover_tables.specs.StepLaws.{Levels};
ghost use Rattle.cover_edges.specs.Records.{edges_in};
ghost use Rattle.cover_edges.specs.RangeLaws.{InRange};
ghost use Rattle.cover_levels.specs.PrepareLaws.{Layout};

use crate::listing::lists;
use crate::ordering::order;
use cover_edges::Edges;
use cover_first::first;
use cover_tables::Areas;

// All tables, and the first pass.
pub fn prepare(edges: &Edges, w: &mut [u32], areas: Areas)
    requires { Layout areas edges.now.count w.old × InRange edges.now.bytes.now edges.now.count areas.groups areas.metas }
    ensures { Levels areas (edges_in edges.now) edges.now.count 0 w.new }
{
    lists(edges, w, areas);
    order(edges, w, areas);
    first(edges, w, areas);
}
