// The first pass: a group that holds the only edge of a meta-peptide is marked and takes its meta-peptides; what is left is counted.
ghost use Rattle.std.specs.Prelude.{ℕ, ◌+◌, ◌<◌, ◌≤◌, ◌≡◌, cond, not, eqb, get_or, length};
ghost use Rattle.cover_tables.specs.StepLaws.{Levels};
ghost use Rattle.cover_first.specs.FirstLaws.{Unmarked, Forced, Covered, OpenCounted};
ghost use Rattle.lists.specs.Lists.{bit};
ghost use Rattle.cover_edges.specs.Records.{edges_in};
ghost use Rattle.cover_edges.specs.RangeLaws.{InRange};

use cover_edges::Edges;
use cover_tables::{Areas, size_at};

// 1 where it is on, else what there was.
fn flagged(on: bool, old: u32) -> u32
    ensures { result ≡ cond on 1 old }
{
    if on { 1 } else { old }
}

// 0 where a is 1, else 1.
fn fresh(a: u32) -> u32
    ensures { result ≡ bit (not (eqb a 1)) }
{
    u32::from(a != 1)
}

// Marks each group that holds the only edge of a meta-peptide.
fn forced(edges: &Edges, w: &mut [u32], areas: Areas)
    requires { Unmarked areas edges.now.bytes.now edges.now.count w.old }
    ensures { Forced areas edges.now.bytes.now w.old w.new edges.now.count }
{
    for i in 0..edges.count {
        let g = edges.group(i);
        let x = edges.meta(i);
        let only = size_at(w, areas.mo + x) == 1;
        let at = areas.groups + areas.metas + g;
        w[at] = flagged(only, w[at]);
    }
}

// Covers each meta-peptide of a marked group.
fn covered(edges: &Edges, w: &mut [u32], groups: usize, metas: usize)
    requires { (groups + metas + groups ≤ length w.old) × InRange edges.now.bytes.now edges.now.count groups metas × ((y : ℕ) → y < metas → get_or w.old (groups + y) 0 ≡ 0) × (edges.now.count ≤ 1048576) }
    ensures { Covered groups metas edges.now.bytes.now w.old w.new edges.now.count }
{
    for i in 0..edges.count {
        let g = edges.group(i);
        let x = edges.meta(i);
        w[groups + x] = flagged(w[groups + metas + g] == 1, w[groups + x]);
    }
}

// Counts the edges of uncovered meta-peptides.
fn counts(edges: &Edges, w: &mut [u32], groups: usize, metas: usize)
    requires { (groups + metas ≤ length w.old) × InRange edges.now.bytes.now edges.now.count groups metas × ((y : ℕ) → y < groups → get_or w.old y 0 ≡ 0) × (edges.now.count ≤ 1048576) }
    ensures { OpenCounted groups edges.now.bytes.now w.old w.new edges.now.count }
{
    for i in 0..edges.count {
        let g = edges.group(i);
        let x = edges.meta(i);
        w[g] += fresh(w[groups + x]);
    }
}

// The first pass.
pub fn first(edges: &Edges, w: &mut [u32], areas: Areas)
    requires { Unmarked areas edges.now.bytes.now edges.now.count w.old }
    ensures { Levels areas (edges_in edges.now) edges.now.count 0 w.new }
{
    forced(edges, w, areas);
    covered(edges, w, areas.groups, areas.metas);
    counts(edges, w, areas.groups, areas.metas);
}
