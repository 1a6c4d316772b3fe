// The runs of equal texts in a sorted stretch.
ghost use Rattle.std.specs.Prelude.{◌≡◌, cond, ◌&&◌, [], ◌∷◌, ◌+◌, ◌-◌, ◌≤◌, ◌<◌, leb, length, take, drop};
ghost use Rattle.std.proofs.Math.Seq.{slice};
ghost use Rattle.sorting_runs.specs.Numbering.{numberable, numbers_outcome};
ghost use Rattle.sorting_texts.specs.Text.{le_by};
ghost use Rattle.sorting_spec.specs.Runs.{run_length, runs_of, run_numbers, next};
ghost use Rattle.records.specs.Outcome.{outcome};

use sorting_texts::{By, Unfit};

// Where the run that begins at lo stops.
fn stop(by: By, letters: &[u8], w: &[u32], lo: usize, hi: usize, e: usize) -> usize
    requires { (lo ≤ hi) × (hi ≤ length w.now) × (e ≤ length w.now) }
    ensures { result ≡ lo + run_length (le_by by letters.now (drop e w.now)) (slice lo hi w.now) }
{
    if lo == hi {
        return lo;
    }
    let mut p = w[lo];
    for i in lo + 1..hi {
        let x = w[i];
        if !sorting_compare::le(by, letters, &w[e..], x, p) {
            return i;
        }
        p = x;
    }
    hi
}

// The end of the run of equal texts that begins at lo in the sorted w[lo..hi], whose keys stand from w[e] on.
pub fn run_end(by: By, letters: &[u8], w: &[u32], lo: usize, hi: usize, e: usize) -> usize
    ensures { result ≡ cond (leb lo hi && leb hi (length w.now) && leb e (length w.now)) (lo + run_length (le_by by letters.now (drop e w.now)) (slice lo hi w.now)) lo }
{
    let n = w.len();
    if (lo <= hi) & (hi <= n) & (e <= n) {
        stop(by, letters, w, lo, hi, e)
    } else {
        lo
    }
}

// The number of x's run, which stands behind p of run g in a sorted list.
fn next_run(by: By, letters: &[u8], keys: &[u32], g: u32, p: u32, x: u32) -> u32
    requires { g < 4294967295 }
    ensures { result ≡ next (le_by by letters.now keys.now) g p x }
{
    if sorting_compare::le(by, letters, keys, x, p) {
        g
    } else {
        g + 1
    }
}

// Writes the numbers of the runs of the sorted w[lo..hi] from w[to] on, and answers how many runs there are.
fn number_fitting(
    by: By,
    letters: &[u8],
    w: &mut [u32],
    lo: usize,
    hi: usize,
    to: usize,
    e: usize,
) -> u32
    requires { (lo ≤ hi) × (hi ≤ to) × (to + (hi - lo) ≤ e) × (e ≤ length w.old) × (hi - lo < 4294967296) }
    ensures { (result ≡ length (runs_of (le_by by letters.now (drop e w.old)) (slice lo hi w.old))) × (slice to (to + (hi - lo)) w.new ≡ run_numbers (le_by by letters.now (drop e w.old)) (slice lo hi w.old)) × (take to w.new ≡ take to w.old) × (drop (to + (hi - lo)) w.new ≡ drop (to + (hi - lo)) w.old) }
{
    if lo == hi {
        return 0;
    }
    let mut p = w[lo];
    let mut g = 0;
    w[to] = 0;
    for i in lo + 1..hi {
        let x = w[i];
        g = next_run(by, letters, &w[e..], g, p, x);
        w[to + (i - lo)] = g;
        p = x;
    }
    g + 1
}

// Whether the numbers of the runs have a place, and can be counted.
fn counts(lo: usize, hi: usize, to: usize, e: usize, n: usize) -> bool
    ensures { result ≡ numberable lo hi to e n }
{
    sorting_slices::fits(lo, hi, to, e, n) && hi - lo <= 4294967295
}

// Numbers the runs of the sorted w[lo..hi] from 0: for each of its numbers that of its run, from w[to] on. The keys stand from
// w[e] on.
pub fn number_runs(
    by: By,
    letters: &[u8],
    w: &mut [u32],
    lo: usize,
    hi: usize,
    to: usize,
    e: usize,
) -> Result<u32, Unfit>
    ensures { outcome result (w.new ∷ []) ≡ numbers_outcome by letters.now lo hi to e w.old }
{
    if !counts(lo, hi, to, e, w.len()) {
        return Err(Unfit);
    }
    let count = number_fitting(by, letters, w, lo, hi, to, e);
    Ok(count)
}
