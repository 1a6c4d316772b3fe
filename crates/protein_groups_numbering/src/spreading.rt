// The texts of runs, spread out.
ghost use Rattle.std.specs.Prelude.{◌+◌, ◌≤◌, length};
ghost use Rattle.protein_groups_numbering.specs.SpreadLaws.{RunCopied, TextAsked, TextSpread, Spreadable, RunsSpread};

use crate::plan::Plan;
use records::wide;

// Copies w[from..from + len] to w[a..], and writes g as often to w[b..].
// One pass, and no copy_within and fill: runs are short.
fn copy_run(w: &mut [u32], from: usize, len: usize, a: usize, b: usize, g: u32)
    requires { (from + len ≤ a) × (a + len ≤ b) × (b + len ≤ length w.old) }
    ensures { RunCopied w.old w.new from len a b g }
{
    for i in 0..len {
        let v = w[from + i];
        w[a + i] = v;
        w[b + i] = g;
    }
}

// Spreads the text of the thing at place j, of run g, behind k keys and values. Answers how long it is.
fn spread_text(w: &mut [u32], plan: Plan, j: usize, k: usize, g: u32) -> usize
    requires { TextAsked w.old plan j k }
    ensures { TextSpread w.old w.new plan j k g result }
{
    let x = wide(w[plan.things + j]);
    let lo = wide(w[plan.bounds + x]);
    let hi = wide(w[plan.bounds + x + 1]);
    let len = hi - lo;
    copy_run(w, plan.texts + lo, len, plan.keys + k, plan.values + k, g);
    len
}

// Spreads the texts of the runs' first things, of t things in order: their numbers are the keys, their runs' numbers the values. Answers how
// many there are.
pub fn spread_runs(w: &mut [u32], plan: Plan, t: usize) -> usize
    requires { Spreadable w.old plan t }
    ensures { RunsSpread w.old w.new plan t result }
{
    let mut seen = 0u32;
    let mut k = 0;
    for j in 0..t {
        let g = w[plan.runs + j];
        if g == seen {
            k += spread_text(w, plan, j, k, g);
            seen += 1;
        }
    }
    k
}
