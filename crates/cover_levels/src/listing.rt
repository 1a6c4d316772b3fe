// The lists of the groups and of the meta-peptides.
ghost use Rattle.cover_edges.specs.RangeLaws.{InRange};
ghost use Rattle.cover_levels.specs.PrepareLaws.{Layout, EdgesIn, ListsMade};

use crate::filling::copy_field;
use cover_edges::Edges;
use cover_tables::Areas;
use records::clear;
use sorting_counting::{Places, sort_by_keys};

// The edges into w, and zero where the lists go.
fn gather(edges: &Edges, w: &mut [u32], areas: Areas)
    requires { Layout areas edges.now.count w.old }
    ensures { EdgesIn areas edges.now.bytes.now edges.now.count w.new }
{
    let end = areas.od + areas.groups;
    clear(&mut w[0..end]);
    copy_field(edges, 0, w, areas.ge);
    copy_field(edges, 4, w, areas.ge + edges.count);
}

// The lists of the groups and of the meta-peptides.
pub(crate) fn lists(edges: &Edges, w: &mut [u32], areas: Areas)
    requires { Layout areas edges.now.count w.old × InRange edges.now.bytes.now edges.now.count areas.groups areas.metas }
    ensures { ListsMade areas edges.now.bytes.now edges.now.count w.new }
{
    let by_group = Places {
        keys: areas.ge,
        values: areas.ge + edges.count,
        count: edges.count,
        bounds: areas.go,
        kinds: areas.groups,
        sorted: areas.gm,
    };
    let by_meta = Places {
        keys: areas.ge + edges.count,
        values: areas.ge,
        count: edges.count,
        bounds: areas.mo,
        kinds: areas.metas,
        sorted: areas.mg,
    };
    let group_base = areas.gm as u32;
    let meta_base = areas.mg as u32;
    gather(edges, w, areas);
    sort_by_keys(w, by_group, group_base);
    sort_by_keys(w, by_meta, meta_base);
}
