// The parts of one window that belong to no smaller one, each of which stands for `times`. Those that are too long are not looked at.
// Sites go as their places, and each buffer is lent on its own: the contracts say what became of each.
ghost use Rattle.std.specs.Prelude.{suc, ◌-◌, ◌<◌};
ghost use Rattle.enzyme_cuts.specs.Cutting.{range, site, halves};
ghost use Rattle.enzyme_once.specs.Once.{endings, openings, own};
ghost use Rattle.enzyme_samples.specs.Ready.{loaded, ReadyOf, OffersOf};

use enzyme_jumps::{first_cut, last_cut, next_cut};
use enzyme_samples::{Run, Source, offer_range};

// Offers both parts of the site a..e for each cut within it.
fn offer_halves(
    source: &Source,
    a: usize,
    e: usize,
    times: u32,
    out: &mut [u8],
    marks: &mut [u32],
    run: Run,
) -> Run
    requires { (a < 4294967296) × ReadyOf source.now (loaded times (halves (range a e 0 0) (suc a) (e - suc a))) run out.old marks.old }
    ensures { OffersOf source.now (loaded times (halves (range a e 0 0) (suc a) (e - suc a))) run out.old marks.old result out.new marks.new }
{
    let mut c = a + 1;
    let mut at = run;
    // A while: each turn goes to the next cut of which one part is not too long.
    while c < e {
        let x = offer_range(source, a, c, 0, 1, times, out, marks, at);
        at = offer_range(source, c, e, 0, 1, times, out, marks, x);
        c = next_cut(a, c + 1, e, source.terms.maximum);
    }
    at
}

// Offers c..e for each c from behind a up to before z.
fn offer_endings(
    source: &Source,
    a: usize,
    z: usize,
    e: usize,
    missed: u8,
    times: u32,
    out: &mut [u8],
    marks: &mut [u32],
    run: Run,
) -> Run
    requires { (a < 4294967296) × ReadyOf source.now (loaded times (endings missed e (suc a) (z - suc a))) run out.old marks.old }
    ensures { OffersOf source.now (loaded times (endings missed e (suc a) (z - suc a))) run out.old marks.old result out.new marks.new }
{
    let first = first_cut(a + 1, e, source.terms.maximum);
    let mut at = run;
    for c in first..z {
        at = offer_range(source, c, e, missed, 1, times, out, marks, at);
    }
    at
}

// Offers a..c for each c from behind b up to before e.
fn offer_openings(
    source: &Source,
    a: usize,
    b: usize,
    e: usize,
    missed: u8,
    times: u32,
    out: &mut [u8],
    marks: &mut [u32],
    run: Run,
) -> Run
    requires { (a < 4294967296) × (b < 4294967296) × ReadyOf source.now (loaded times (openings missed a (suc b) (e - suc b))) run out.old marks.old }
    ensures { OffersOf source.now (loaded times (openings missed a (suc b) (e - suc b))) run out.old marks.old result out.new marks.new }
{
    let stop = last_cut(a, e, source.terms.maximum);
    let mut at = run;
    for c in b + 1..stop {
        at = offer_range(source, a, c, missed, 1, times, out, marks, at);
    }
    at
}

// Offers the parts of the window from the site a..z to the site b..e, `missed` sites on.
pub fn offer_own(
    source: &Source,
    a: usize,
    z: usize,
    b: usize,
    e: usize,
    missed: u8,
    times: u32,
    out: &mut [u8],
    marks: &mut [u32],
    run: Run,
) -> Run
    requires { (a < 4294967296) × (b < 4294967296) × ReadyOf source.now (loaded times (own missed (site a z) (site b e))) run out.old marks.old }
    ensures { OffersOf source.now (loaded times (own missed (site a z) (site b e))) run out.old marks.old result out.new marks.new }
{
    if missed == 0 {
        return offer_halves(source, a, e, times, out, marks, run);
    }
    let x = offer_endings(source, a, z, e, missed, times, out, marks, run);
    offer_openings(source, a, b, e, missed, times, out, marks, x)
}
