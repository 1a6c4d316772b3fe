// Things sorted by their texts, and the texts of their runs spread out.
ghost use Rattle.std.specs.Prelude.{◌+◌, ◌<◌, ◌≤◌, length};
ghost use Rattle.protein_groups_runs.specs.TakerLaws.{Takers};
ghost use Rattle.protein_groups_runs.specs.OrderingLaws.{RunsOrdered};
ghost use Rattle.protein_groups_runs.specs.ThingLaws.{PlanFits, Things, Ran};
ghost use Rattle.protein_groups_runs.specs.MetaLaws.{DistinctSpread};

use protein_groups_numbering::{Plan, spread_runs};
use records::wide;
use sorting_texts::By;

// The numbers of the m stretches that are not empty, to w[o..]; answers how many.
fn takers(w: &mut [u32], e: usize, m: u32, o: usize) -> usize
    requires { (o + m ≤ e) × (e + m < length w.old) }
    ensures { Takers w.old w.new e m o result }
{
    let mut k = 0;
    for i in 0..m {
        let at = e + wide(i);
        if w[at] < w[at + 1] {
            w[o + k] = i;
            k += 1;
        }
    }
    k
}

// Sorts t things by their texts, and numbers their runs. Answers how many runs there are.
fn order_runs(w: &mut [u32], plan: Plan, t: usize) -> u32
    requires { Things w.old plan t }
    ensures { RunsOrdered w.old w.new plan.things t plan.runs plan.bounds plan.texts result }
{
    let base = (plan.texts - plan.bounds) as u32;
    let lo = plan.things;
    let hi = lo + t;
    let to = plan.runs;
    let e = plan.bounds;
    sorting_merge::sort_range(By::Numbers(base), b"", w, lo, hi, to, e);
    let numbered = sorting_runs::number_runs(By::Numbers(base), b"", w, lo, hi, to, e);
    numbered.unwrap_or(0)
}

// How many were spread, and of how many runs.
#[derive(Clone, Copy)]
pub struct Runs {
    pub entries: usize,
    pub count: u32,
}

// Sorts t things by their texts, numbers their runs and spreads the runs' texts out.
pub fn runs_of(w: &mut [u32], plan: Plan, t: usize) -> Runs
    requires { Things w.old plan t }
    ensures { Ran w.old w.new plan t result.entries result.count }
{
    let count = order_runs(w, plan, t);
    let entries = spread_runs(w, plan, t);
    Runs { entries, count }
}

// The distinct texts of the plan's stretches that are not empty, in order and spread out: what they hold as keys, and their numbers as
// values. The things and their runs are work memory.
pub fn distinct_runs(w: &mut [u32], plan: Plan) -> Runs
    requires { PlanFits w.old plan plan.kinds }
    ensures { DistinctSpread w.old w.new plan result.entries result.count }
{
    let t = takers(w, plan.bounds, plan.kinds, plan.things);
    runs_of(w, plan, t)
}
