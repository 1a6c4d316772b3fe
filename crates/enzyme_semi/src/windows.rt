// Windows of neighbouring sites, by the table of their starts.
// `starts` has a place for each letter (no heap), of which m sites are in use; each buffer is lent on its own: the contracts say what
// became of each.
ghost use Rattle.std.specs.Prelude.{◌≡◌, [], ◌∷◌, suc, ◌+◌, ◌<◌, ◌≤◌, length};
ghost use Rattle.enzyme_cuts.specs.Cutting.{range, windows, windows_from};
ghost use Rattle.enzyme_samples.specs.Ready.{weighted, loaded, ReadyOf, OffersOf};
ghost use Rattle.enzyme_parts.specs.Walk.{site_start, sites_in};

use enzyme_samples::{Run, Source, offer_range};

// The place at which site i starts.
pub(crate) fn place(starts: &[u32], i: usize) -> usize
    requires { i < length starts.now }
    ensures { (result ≡ site_start starts.now i) × (result < 4294967296) }
{
    starts[i] as usize
}

// Offers the window of the sites i to j.
fn offer_window(
    source: &Source,
    starts: &[u32],
    i: usize,
    j: usize,
    missed: u8,
    out: &mut [u8],
    marks: &mut [u32],
    run: Run,
) -> Run
    requires { (i ≤ j) × (j + 1 < length starts.now) × ReadyOf source.now (weighted (range (site_start starts.now i) (site_start starts.now (j + 1)) missed 0) 1 ∷ []) run out.old marks.old }
    ensures { OffersOf source.now (weighted (range (site_start starts.now i) (site_start starts.now (j + 1)) missed 0) 1 ∷ []) run out.old marks.old result out.new marks.new }
{
    let a = place(starts, i);
    let e = place(starts, j + 1);
    offer_range(source, a, e, missed, 0, 1, out, marks, run)
}

// Offers the windows of missed + 1 sites.
fn offer_windows(
    source: &Source,
    starts: &[u32],
    m: usize,
    missed: u8,
    out: &mut [u8],
    marks: &mut [u32],
    run: Run,
) -> Run
    requires { (m < length starts.now) × ReadyOf source.now (loaded 1 (windows missed (sites_in starts.now m))) run out.old marks.old }
    ensures { OffersOf source.now (loaded 1 (windows missed (sites_in starts.now m))) run out.old marks.old result out.new marks.new }
{
    let on = missed as usize;
    let mut at = run;
    for i in 0..m.saturating_sub(on) {
        at = offer_window(source, starts, i, i + on, missed, out, marks, at);
    }
    at
}

// Offers the windows of 1 to missed + 1 sites.
pub fn offer_all_windows(
    source: &Source,
    starts: &[u32],
    m: usize,
    missed: u8,
    out: &mut [u8],
    marks: &mut [u32],
    run: Run,
) -> Run
    requires { (m < length starts.now) × (missed < 255) × ReadyOf source.now (loaded 1 (windows_from 0 (suc missed) (sites_in starts.now m))) run out.old marks.old }
    ensures { OffersOf source.now (loaded 1 (windows_from 0 (suc missed) (sites_in starts.now m))) run out.old marks.old result out.new marks.new }
{
    let mut at = run;
    for k in 0..=missed {
        at = offer_windows(source, starts, m, k, out, marks, at);
    }
    at
}
