// Sites that go on to windows of one site more.
ghost use Rattle.std.specs.Prelude.{◌≡◌, cond, ◌&&◌, not, ◌+◌, ◌≤◌, ◌<◌, ltb, eqb, length, get_or};
ghost use Rattle.enzyme_rows.specs.Steps.{FirstDiffer, in_run, goes_on, Kept};

// Whether a run does not start at a place.
fn joins(runs: &[u16], i: usize) -> bool
    requires { i < length runs.now }
    ensures { result ≡ not (eqb (get_or runs.now i 0) i) }
{
    usize::from(runs[i]) != i
}

// The same of the place behind, where there is one among g.
fn next_joins(runs: &[u16], g: usize, i: usize) -> bool
    requires { (i < g) × (g ≤ length runs.now) }
    ensures { result ≡ (ltb (i + 1) g && not (eqb (get_or runs.now (i + 1) 0) (i + 1))) }
{
    let next = i + 1;
    if next < g { joins(runs, next) } else { false }
}

// Whether site x at a place of the order goes on: its run has another site, and there is a site n places on.
fn goes_on(runs: &[u16], x: u16, g: usize, m: usize, n: u8, i: usize) -> bool
    requires { (i < g) × (g ≤ length runs.now) }
    ensures { result ≡ (in_run runs.now g i && ltb (x + n) m) }
{
    let here = joins(runs, i);
    let there = next_joins(runs, g, i);
    let on = usize::from(x) + usize::from(n);
    (here | there) & (on < m)
}

// Moves those of the first g sites that go on to the front; says how many there are.
pub fn keep(order: &mut [u16], runs: &[u16], g: usize, m: usize, n: u8) -> usize
    requires { (g ≤ length order.old) × (g ≤ length runs.now) × (g ≤ 65536) × FirstDiffer order.old g }
    ensures { Kept (goes_on order.old runs.now g m n) order.old order.new g result }
{
    let mut k = 0;
    for i in 0..g {
        let x = order[i];
        let more = goes_on(runs, x, g, m, n, i);
        order[k] = x;
        k = enzyme_rows::after(k, more);
    }
    k
}
