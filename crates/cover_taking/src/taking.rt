// A group is taken: it is marked, each of its meta-peptides that is not covered yet is covered, and their edges leave the counts.
ghost use Rattle.std.specs.Prelude.{ℕ, ◌+◌, ◌<◌, ◌≡◌, get_or};
ghost use Rattle.std.proofs.Math.Seq.{slice};
ghost use Rattle.lists.specs.Lists.{times};
ghost use Rattle.lists.specs.FrameLaws.{Framed};
ghost use Rattle.cover_tables.specs.TableLaws.{Lowerable};
ghost use Rattle.cover_tables.specs.StepLaws.{Walk, Visits, Reaches, Takes};
ghost use Rattle.cover_edges.specs.Records.{edges_in};

use cover_edges::Edges;
use cover_tables::{Areas, stretch_at};
use records::wide;

// Lowers the count of each group that w[a..e] names.
fn lower(w: &mut [u32], groups: usize, a: usize, e: usize)
    requires { Lowerable groups a e w.old }
    ensures { ((g : ℕ) → g < groups → get_or w.new g 0 + times g (slice a e w.old) ≡ get_or w.old g 0) × Framed 0 groups w.old w.new }
{
    for p in a..e {
        let g = wide(w[p]);
        w[g] -= 1;
    }
}

// Covers meta-peptide x, if it is not covered yet.
fn visit(edges: &Edges, w: &mut [u32], areas: Areas, x: usize)
    requires { Walk areas (edges_in edges.now) w.old × (x < areas.metas) }
    ensures { Visits areas (edges_in edges.now) x w.old w.new }
{
    if w[areas.groups + x] == 1 {
        return;
    }
    w[areas.groups + x] = 1;
    let list = stretch_at(w, areas.mo + x);
    lower(w, areas.groups, list.from, list.till);
}

// Covers the meta-peptides of group c.
fn reach(edges: &Edges, w: &mut [u32], areas: Areas, c: usize)
    requires { Walk areas (edges_in edges.now) w.old × (c < areas.groups) }
    ensures { Reaches areas (edges_in edges.now) c w.old w.new }
{
    let list = stretch_at(w, areas.go + c);
    for p in list.from..list.till {
        let x = wide(w[p]);
        visit(edges, w, areas, x);
    }
}

// Takes group c: marks it and covers its meta-peptides.
pub fn choose(edges: &Edges, w: &mut [u32], areas: Areas, c: usize)
    requires { Walk areas (edges_in edges.now) w.old × (c < areas.groups) }
    ensures { Takes areas (edges_in edges.now) c w.old w.new }
{
    w[areas.groups + areas.metas + c] = 1;
    reach(edges, w, areas, c);
}
