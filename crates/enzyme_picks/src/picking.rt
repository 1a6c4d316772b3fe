// The new windows of one size as records.
ghost use Rattle.std.specs.Prelude.{◌≡◌, cond, suc, ◌-◌, ◌≤◌, ◌<◌, length};
ghost use Rattle.enzyme_keep.specs.Steps.{after};
ghost use Rattle.enzyme_weights.specs.Weights.{weight_at};
ghost use Rattle.enzyme_picks.specs.Picks.{StartsRise, windows_put};

use enzyme_keep::Terms;
use enzyme_weights::Level;

// The weight of the window of n sites from site i, where its length is within the limits. Whether it is new is asked in the same test:
// where windows repeat, neither can be foreseen.
fn times_of(fits: bool, level: &Level, n: usize, i: usize) -> u32
    requires { (i < length level.now.rank.now) × (i < length level.now.share.now) }
    ensures { result ≡ cond fits (weight_at level.now n i) 0 }
{
    let shared = usize::from(level.share[i]);
    if fits & (shared < n) {
        return level.new_weight(i);
    }
    0
}

// Writes those windows of missed + 1 of the m sites of n letters that have a length within the limits and a weight, each with its weight.
// starts has the starts of the sites and the end of the last; the level is that of windows of as many sites.
pub fn list_size(
    starts: &[u32],
    level: &Level,
    m: usize,
    missed: u8,
    n: usize,
    terms: Terms,
    out: &mut [u8],
    count: usize,
) -> Option<usize>
    requires { (missed ≤ 16) × (m ≤ length level.now.rank.now) × (m ≤ length level.now.share.now) × StartsRise starts.now m }
    ensures { after result out.new ≡ windows_put n terms.protein starts.now (weight_at level.now (suc missed)) terms.minimum terms.maximum missed 0 (m - missed) count out.old }
{
    let before = usize::from(missed);
    let sites = before + 1;
    let mut k = count;
    for i in 0..m.saturating_sub(before) {
        let from = starts[i] as usize;
        let to = starts[i + sites] as usize;
        let fits = enzyme_keep::length_within(to - from, terms.minimum, terms.maximum);
        let times = times_of(fits, level, sites, i);
        let new = 0 < times;
        k = enzyme_keep::write_range(new, from, to, missed, 0, n, terms.protein, times, out, k)?;
    }
    Some(k)
}
