// The groups of proteins, as records of lent buffers.
ghost use Rattle.std.specs.Prelude.{◌≡◌, cond, ◌&&◌, [], ◌∷◌, ◌/◌, ◌≤◌, min, leb, length};
ghost use Rattle.protein_groups_tests.specs.TestingLaws.{PairsReady};
ghost use Rattle.records.specs.Outcome.{outcome};
ghost use Rattle.protein_groups_spec.specs.ProteinGroups.{pairs_in, grouping};
ghost use Rattle.protein_groups.specs.ProteinGrouping.{proteins_grouped, protein_groups_outcome};

use crate::arranging::{Stands, hand_out, set_up};
use protein_groups_tables::{Made, group_in, keys_at};
use protein_groups_tests::Asked;
use records::{Refusal, clear, room_for};

// How many groups, meta-peptides, edges and members there are.
#[derive(Clone, Copy)]
pub struct Sizes {
    pub groups: u32,
    pub metas: u32,
    pub edges: u32,
    pub members: u32,
}

// The sizes, or that a list has no room for all.
fn answer(made: Made, edges: usize, members: usize) -> Result<Sizes, Refusal>
    requires { (made.edges ≤ 1048576) × (made.members ≤ 131072) }
    ensures { result ≡ cond (leb made.edges (min (edges / 8) 1048576) && leb made.members (min (members / 12) 131072)) (Ok (record { groups = made.groups; metas = made.metas; edges = made.edges; members = made.members })) (Err Refusal.Room) }
{
    let most = room_for(edges, 8, 1048576);
    let last = room_for(members, 12, 131072);
    if (made.edges <= most) & (made.members <= last) {
        Ok(Sizes {
            groups: made.groups,
            metas: made.metas,
            edges: made.edges as u32,
            members: made.members as u32,
        })
    } else {
        Err(Refusal::Room)
    }
}

// Groups at least one pair, all in order.
fn group_some(
    asked: &Asked,
    work: &mut [u32],
    edges: &mut [u8],
    members: &mut [u8],
) -> Result<Sizes, Refusal>
    requires { PairsReady asked.now.pairs.now asked.now.flags.now asked.now.peptides asked.now.proteins (length work.old) × (8 ≤ length asked.now.pairs.now) }
    ensures { outcome result (work.new ∷ edges.new ∷ members.new ∷ []) ≡ proteins_grouped (grouping asked.now.flags.now asked.now.peptides (pairs_in asked.now.pairs.now)) work.old edges.old members.old }
{
    let n = asked.pairs.len() / 8;
    let left = asked.proteins as usize;
    let k = 2 * left;
    let a = keys_at(k, asked.peptides, n);
    let free = edges.len();
    let open = members.len();
    set_up(asked.pairs, asked.flags, work, a, n);
    let made = group_in(work, k, asked.peptides, n);
    let stands = Stands {
        metas: a,
        groups: a + n,
        edges: made.edges,
        order: k,
        ranks: 2 * k,
        members: made.members,
    };
    hand_out(work, stands, edges, members);
    answer(made, free, open)
}

// Groups pairs that are in order. Without one there is no group.
fn group_passed(
    asked: &Asked,
    work: &mut [u32],
    edges: &mut [u8],
    members: &mut [u8],
) -> Result<Sizes, Refusal>
    requires { PairsReady asked.now.pairs.now asked.now.flags.now asked.now.peptides asked.now.proteins (length work.old) }
    ensures { outcome result (work.new ∷ edges.new ∷ members.new ∷ []) ≡ proteins_grouped (grouping asked.now.flags.now asked.now.peptides (pairs_in asked.now.pairs.now)) work.old edges.old members.old }
{
    if asked.pairs.len() < 8 {
        clear(work);
        return Ok(Sizes {
            groups: 0,
            metas: 0,
            edges: 0,
            members: 0,
        });
    }
    group_some(asked, work, edges, members)
}

// Writes the edges between groups and meta-peptides to edges, group by group, and a record for each protein of a group to members.
// The work memory is zero after acceptance or where a list has no room.
pub fn group_proteins(
    pairs: &[u8],
    flags: &[u8],
    peptides: u32,
    proteins: u32,
    work: &mut [u32],
    edges: &mut [u8],
    members: &mut [u8],
) -> Result<Sizes, Refusal>
    ensures { outcome result (work.new ∷ edges.new ∷ members.new ∷ []) ≡ protein_groups_outcome pairs.now flags.now peptides proteins work.old edges.old members.old }
{
    let asked = Asked {
        pairs,
        flags,
        peptides,
        proteins,
    };
    asked.tested(work.len())?;
    group_passed(&asked, work, edges, members)
}
