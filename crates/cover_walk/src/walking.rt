// The levels, from the most edges down: at each the groups that have exactly so many edges left are taken, in their order.
ghost use Rattle.std.specs.Prelude.{ℕ, ◌+◌, ◌-◌, ◌<◌, ◌≡◌, false, eqb, get_or};
ghost use Rattle.cover_tables.specs.StepLaws.{Walk, Levels};
ghost use Rattle.cover_spec.specs.Cover.{of_group, cover};
ghost use Rattle.cover_edges.specs.Records.{edges_in};

use cover_edges::Edges;
use cover_tables::{Areas, size_at};
use cover_taking::choose;
use records::wide;

// Takes the group at place i of the order if it has d edges left.
fn step(edges: &Edges, w: &mut [u32], areas: Areas, d: usize, i: usize)
    requires { Levels areas (edges_in edges.now) d i w.old × (i < areas.groups) × (0 < d) }
    ensures { Levels areas (edges_in edges.now) d (i + 1) w.new }
{
    let c = wide(w[areas.od + i]);
    let left = wide(w[c]);
    if left == d {
        choose(edges, w, areas, c);
    }
}

// Whether the group at place i of the order has d edges or more.
fn more(edges: &Edges, w: &[u32], areas: Areas, d: usize, i: usize) -> bool
    requires { Walk areas (edges_in edges.now) w.now × (i < areas.groups) }
    ensures { result ≡ false → of_group (get_or w.now (areas.od + i) 0) (edges_in edges.now) < d }
{
    let c = wide(w[areas.od + i]);
    d <= size_at(w, areas.go + c)
}

// Walks level d.
fn sweep(edges: &Edges, w: &mut [u32], areas: Areas, d: usize)
    requires { Levels areas (edges_in edges.now) d 0 w.old × (0 < d) }
    ensures { Levels areas (edges_in edges.now) (d - 1) 0 w.new }
{
    for i in 0..areas.groups {
        if !more(edges, w, areas, d, i) {
            return;
        }
        step(edges, w, areas, d, i);
    }
}

// Walks the levels from top down.
pub(crate) fn descend(edges: &Edges, w: &mut [u32], areas: Areas, top: usize)
    requires { Levels areas (edges_in edges.now) top 0 w.old }
    ensures { (g : ℕ) → g < areas.groups → eqb (get_or w.new (areas.groups + areas.metas + g) 0) 1 ≡ cover areas.groups (edges_in edges.now) g }
{
    for below in (0..top).rev() {
        sweep(edges, w, areas, below + 1);
    }
}
