// The grouping, first by peptides and then by proteins.
ghost use Rattle.std.specs.Prelude.{◌≡◌, List, map, ℕ, ◌+◌, ◌≤◌, length};
ghost use Rattle.std.proofs.Math.Seq.{slice};
ghost use Rattle.protein_groups_spec.specs.ProteinGroups.{Pair};
ghost use Rattle.protein_groups_spec.specs.PackedGroups.{packed_seen};
ghost use Rattle.protein_groups_spec.specs.WholeLaws.{peptides_of};
ghost use Rattle.protein_groups_tables.specs.PlanLaws.{PlanKeyed};
ghost use Rattle.protein_groups_tables.specs.EvidenceLaws.{Peptides};
ghost use Rattle.protein_groups_tables.specs.PeptideLaws.{ByPeptides};
ghost use Rattle.protein_groups_tables.specs.ProteinLaws.{Rowed, ByProteins};
ghost use Rattle.protein_groups_tables.specs.Placed.{keys_at, values_at, peptide_plan, Placeable, GroupingPlaced, GroupingFits};

use crate::evidence::evidences;
use crate::keyed::sort_values;
use protein_groups_numbering::Plan;
use protein_groups_runs::{Runs, distinct_runs, runs_of};
use records::wide;

// How many proteins were found, how many numbers the meta-peptides spread out are, and how many meta-peptides there are.
// `found` is how many proteins there are, and no flag.
#[derive(Clone, Copy)]
struct Half {
    found: u32,
    entries: usize,
    metas: u32,
}

// Of the plan's values, each below k, and their keys: the values by first appearance from w[0] on, and in place of the keys and values the
// distinct evidences of the keys spread out, and their numbers. The rest of w from w[k] on is work memory.
fn by_peptides(w: &mut [u32], k: usize, plan: Plan) -> Half
    requires { Peptides w.old k plan }
    ensures { ByPeptides w.old w.new k plan result.found result.entries result.metas }
{
    let found = evidences(w, k, plan);
    let metas = distinct_runs(w, plan);
    Half {
        found,
        entries: metas.entries,
        metas: metas.count,
    }
}

// Writes 0, 1, .. , n numbers from w[o] on.
fn count_from(w: &mut [u32], o: usize, n: u32)
    requires { o + n ≤ length w.old }
    ensures { Rowed w.old w.new o n n }
{
    for i in 0..n {
        let at = o + wide(i);
        w[at] = i;
    }
}

// Of the plan's proteins, its keys, and their meta-peptides, its values: the proteins by their lists, their groups, and in place of the keys
// and values the groups' lists spread out, and their groups.
fn by_proteins(w: &mut [u32], plan: Plan) -> Runs
    requires { PlanKeyed w.old plan }
    ensures { ByProteins w.old w.new plan result.entries result.count }
{
    let size = wide(plan.kinds);
    sort_values(w, plan);
    count_from(w, plan.things, plan.kinds);
    runs_of(w, plan, size)
}

// How many groups, meta-peptides, edges and members there are.
#[derive(Clone, Copy)]
pub struct Made {
    pub groups: u32,
    pub metas: u32,
    pub edges: usize,
    pub members: usize,
}

// Where n pairs are placed: their peptides, each below m, and behind them what they show, each below k.
pub fn keys_at(k: usize, m: u32, n: usize) -> usize
    requires { (k ≤ 131072) × (n ≤ 1048576) }
    ensures { result ≡ keys_at k m n }
{
    let size = m as usize;
    4 * k + 3 * size + n + 4
}

// The tables of the half by peptides.
fn peptide_plan(k: usize, m: u32, n: usize) -> Plan
    requires { (k ≤ 131072) × (n ≤ 1048576) }
    ensures { result ≡ peptide_plan k m n }
{
    let size = m as usize;
    let keys = keys_at(k, m, n);
    Plan {
        things: 4 * k + 2,
        runs: 4 * k + 2 + size,
        bounds: 4 * k + 2 + 2 * size,
        kinds: m,
        texts: 4 * k + 3 * size + 4,
        keys,
        values: keys + n,
        count: n,
    }
}

// Groups n pairs that stand where `keys_at` says, all else before them being zero.
// (k, m and n beside w: without a heap all tables stand in the one slice that was lent.)
pub fn group_in(w: &mut [u32], k: usize, m: u32, n: usize) -> Made
    requires { Placeable w.old k m n }
    ensures { GroupingFits w.new k n result.edges result.members × ((flags : List ℕ) (qs : List Pair) → slice (keys_at k m n) (keys_at k m n + n) w.old ≡ peptides_of qs → slice (values_at k m n) (values_at k m n + n) w.old ≡ map (packed_seen flags) qs → GroupingPlaced flags qs w.new k m n result.groups result.metas result.edges result.members) }
{
    let first = peptide_plan(k, m, n);
    let half = by_peptides(w, k, first);
    let second = Plan {
        things: k,
        runs: 2 * k,
        bounds: 3 * k,
        kinds: half.found,
        texts: first.texts,
        keys: first.keys,
        values: first.values,
        count: half.entries,
    };
    let made = by_proteins(w, second);
    Made {
        groups: made.count,
        metas: half.metas,
        edges: made.entries,
        members: wide(half.found),
    }
}
