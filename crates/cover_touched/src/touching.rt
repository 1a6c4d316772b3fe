// The parts that an update touches.
ghost use Rattle.std.specs.Prelude.{◌≡◌, cond, ◌∷◌, ℕ, ◌+◌, ◌<◌, length, get_or};
ghost use Rattle.cover_joining.specs.Joining.{Forest, Joined, nodes};
ghost use Rattle.cover_differing.specs.Walking.{differing, GroupsLinked};
ghost use Rattle.cover_edges.specs.Records.{edges_in};
ghost use Rattle.cover_touched.specs.Touching.{seeds, UpdateSized, PartsTell};

use cover_differing::differs_at;
use cover_edges::{Edges, link};
use cover_joining::{each_alone, join, join_edges};
use records::clear;

// Makes all tables: each node is a part of its own.
fn set_up(old: &Edges, new: &Edges, groups: usize, metas: usize, w: &mut [u32])
    requires { UpdateSized old.now.bytes.now old.now.count new.now.bytes.now new.now.count groups metas (length w.old) }
    ensures groups_linked { GroupsLinked old.now.bytes.now old.now.count new.now.bytes.now new.now.count groups metas w.new }
    ensures by_index { (x : ℕ) → x < nodes groups metas → get_or w.new (metas + x) 0 ≡ x }
{
    let size = 1 + groups + metas;
    let ho = metas + size;
    let hn = ho + groups;
    let no = hn + groups;
    clear(w);
    link(old, 0, w, groups, ho, no);
    link(new, 0, w, groups, hn, no + old.count);
    each_alone(w, metas, size);
}

// Joins group g to what is touched if some edge of it differs.
fn join_if(old: &Edges, new: &Edges, groups: usize, metas: usize, w: &mut [u32], g: usize)
    requires groups_linked { GroupsLinked old.now.bytes.now old.now.count new.now.bytes.now new.now.count groups metas w.old }
    requires forest { Forest w.old metas (nodes groups metas) }
    requires g_lt_groups { g < groups }
    ensures { Joined (λ links. cond (differing (edges_in old.now) (edges_in new.now) g) ((0, 1 + g) ∷ links) links) w.old w.new metas (nodes groups metas) }
{
    let size = 1 + groups + metas;
    if differs_at(old, new, groups, metas, w, g) {
        join(w, metas, size, 0, 1 + g);
    }
}

// Joins each group of which some edge differs to what is touched.
fn join_differing(old: &Edges, new: &Edges, groups: usize, metas: usize, w: &mut [u32])
    requires groups_linked { GroupsLinked old.now.bytes.now old.now.count new.now.bytes.now new.now.count groups metas w.old }
    requires forest { Forest w.old metas (nodes groups metas) }
    ensures { Joined (seeds (differing (edges_in old.now) (edges_in new.now)) groups) w.old w.new metas (nodes groups metas) }
{
    for g in 0..groups {
        join_if(old, new, groups, metas, w, g);
    }
}

// Joins the groups and meta-peptides of both lists into parts, and to node 0 the parts of which some edge differs.
pub(crate) fn touch(old: &Edges, new: &Edges, groups: usize, metas: usize, w: &mut [u32])
    requires { UpdateSized old.now.bytes.now old.now.count new.now.bytes.now new.now.count groups metas (length w.old) }
    ensures { PartsTell (edges_in old.now) (edges_in new.now) groups metas w.new }
{
    set_up(old, new, groups, metas, w);
    join_edges(old, groups, metas, w, metas);
    join_edges(new, groups, metas, w, metas);
    join_differing(old, new, groups, metas, w);
}
