// The work memory of a grouping: filled, and written out.
ghost use Rattle.std.specs.Prelude.{ℕ, ◌+◌, ◌*◌, ◌≤◌, ◌<◌, length, replicate};
ghost use Rattle.records.specs.Le.{number_at};
ghost use Rattle.protein_groups_place.specs.Placing.{PairsLaid};
ghost use Rattle.protein_groups.specs.Steps.{Writable, Handed};

use protein_groups_copy::{write_edges, write_members};
use protein_groups_place::place_pairs;
use records::clear;

// Clears the work memory, and places n pairs from w[a] on.
pub(crate) fn set_up(pairs: &[u8], flags: &[u8], w: &mut [u32], a: usize, n: usize)
    requires { (n ≤ 1048576) × (a + n + n ≤ length w.old) × ((i : ℕ) → i < n → number_at 4 pairs.now (8 * i + 4) < 65536) }
    ensures { PairsLaid pairs.now flags.now a n n (replicate (length w.old) 0) w.new }
{
    clear(w);
    place_pairs(pairs, flags, w, a, n);
}

// Where a grouping stands in the work memory: so many edges, their meta-peptides from `metas` on and their groups from `groups` on; and so many
// members, the places of what shows them from `order` on and their groups from `ranks` on.
#[derive(Clone, Copy)]
pub struct Stands {
    pub metas: usize,
    pub groups: usize,
    pub edges: usize,
    pub order: usize,
    pub ranks: usize,
    pub members: usize,
}

// Writes the edges and the members, and clears the work memory.
pub(crate) fn hand_out(w: &mut [u32], stands: Stands, edges: &mut [u8], members: &mut [u8])
    requires { Writable stands (length w.old) }
    ensures { Handed w.old edges.old members.old stands w.new edges.new members.new }
{
    write_edges(w, stands.metas, stands.groups, stands.edges, edges);
    write_members(w, stands.order, stands.ranks, stands.members, members);
    clear(w);
}
