// The parts of windows of neighbouring sites, by the table of their starts: those of the first of equal windows stand for all of them.
// `starts` has a place for each letter (no heap), of which m sites are in use; each buffer is lent on its own: the contracts say what
// became of each.
ghost use Rattle.std.specs.Prelude.{suc, ◌+◌, ◌<◌, ◌≤◌, length};
ghost use Rattle.enzyme_once.specs.Once.{own};
ghost use Rattle.enzyme_weights.specs.Weights.{weight_in};
ghost use Rattle.enzyme_samples.specs.Ready.{loaded, ReadyOf, OffersOf};
ghost use Rattle.enzyme_parts.specs.Walk.{sites_in, site_in, weigh_part};
ghost use Rattle.enzyme_parts.specs.Weighed.{weigh_owns};
ghost use Rattle.enzyme_semi.specs.Tables.{TablesServe};

use crate::weighing::weight_of;
use crate::windows::place;
use enzyme_parts::offer_own;
use enzyme_samples::{Run, Source};

// Offers the parts of the window of the sites i to j, each for `times`.
fn offer_parts(
    source: &Source,
    starts: &[u32],
    i: usize,
    j: usize,
    missed: u8,
    times: u32,
    out: &mut [u8],
    marks: &mut [u32],
    run: Run,
) -> Run
    requires { (i ≤ j) × (j + 1 < length starts.now) × ReadyOf source.now (loaded times (own missed (site_in starts.now i) (site_in starts.now j))) run out.old marks.old }
    ensures { OffersOf source.now (loaded times (own missed (site_in starts.now i) (site_in starts.now j))) run out.old marks.old result out.new marks.new }
{
    let a = place(starts, i);
    let z = place(starts, i + 1);
    let b = place(starts, j);
    let e = place(starts, j + 1);
    offer_own(source, a, z, b, e, missed, times, out, marks, run)
}

// The same, but for 0: all of them were offered with an earlier window.
fn offer_weighed(
    source: &Source,
    starts: &[u32],
    i: usize,
    j: usize,
    missed: u8,
    times: u32,
    out: &mut [u8],
    marks: &mut [u32],
    run: Run,
) -> Run
    requires { (i ≤ j) × (j + 1 < length starts.now) × ReadyOf source.now (weigh_part starts.now times missed i j) run out.old marks.old }
    ensures { OffersOf source.now (weigh_part starts.now times missed i j) run out.old marks.old result out.new marks.new }
{
    if times == 0 {
        return run;
    }
    offer_parts(source, starts, i, j, missed, times, out, marks, run)
}

// Offers the parts of the windows of missed + 1 of the m sites, with the weights that the tables tell.
pub fn offer_owns(
    source: &Source,
    starts: &[u32],
    order: &[u16],
    runs: &[u16],
    rank: &[u16],
    share: &[u8],
    g: usize,
    m: usize,
    missed: u8,
    out: &mut [u8],
    marks: &mut [u32],
    run: Run,
) -> Run
    requires { (m < length starts.now) × TablesServe order.now runs.now rank.now share.now g m × ReadyOf source.now (weigh_owns (weight_in order.now runs.now rank.now share.now g (suc missed)) missed (sites_in starts.now m)) run out.old marks.old }
    ensures { OffersOf source.now (weigh_owns (weight_in order.now runs.now rank.now share.now g (suc missed)) missed (sites_in starts.now m)) run out.old marks.old result out.new marks.new }
{
    let on = missed as usize;
    let mut at = run;
    for i in 0..m.saturating_sub(on) {
        let times = weight_of(order, runs, rank, share, g, m, missed, i);
        at = offer_weighed(source, starts, i, i + on, missed, times, out, marks, at);
    }
    at
}
