// Sites put in order, and the runs of those with one key.
ghost use Rattle.std.specs.Prelude.{◌≡◌, cond, ◌≤◌, length};
ghost use Rattle.lists.specs.Lists.{same};
ghost use Rattle.enzyme_keys.specs.Keys.{SiteWithin, SiteOf, letters_at, names_at, key_of};
ghost use Rattle.enzyme_rows.specs.Steps.{FirstDiffer, Sited, Arranged, RunStarts};

use enzyme_keys::{Key, Sorting};

// Whether two sites have the same letters.
fn same_site(letters: &[u8], starts: &[u32], a: u16, b: u16) -> bool
    requires { SiteWithin letters.now starts.now a × SiteWithin letters.now starts.now b }
    ensures { result ≡ same (letters_at letters.now starts.now a) (letters_at letters.now starts.now b) }
{
    let p = enzyme_keys::start_of(starts, a);
    let q = enzyme_keys::end_of(starts, a);
    let u = enzyme_keys::start_of(starts, b);
    let v = enzyme_keys::end_of(starts, b);
    enzyme_cuts::equal(&letters[p..q], &letters[u..v])
}

// Whether two sites have the same rank, and the sites k places on the same name.
fn same_names(name: &[u16], rank: &[u16], k: usize, a: u16, b: u16) -> bool
    ensures { result ≡ same (names_at k name.now rank.now a) (names_at k name.now rank.now b) }
{
    let x = enzyme_keys::rank_of(rank, a);
    let y = enzyme_keys::rank_of(rank, b);
    let u = enzyme_keys::name_on(name, a, k);
    let v = enzyme_keys::name_on(name, b, k);
    (x == y) & (u == v)
}

// Whether two sites have the same key.
fn same_key(by: &Sorting, a: u16, b: u16) -> bool
    requires { SiteOf by.now a × SiteOf by.now b }
    ensures { result ≡ same (key_of by.now a) (key_of by.now b) }
{
    match by.key {
        Key::Letters => same_site(by.letters, by.starts, a, b),
        Key::Names(k) => same_names(by.name, by.rank, k, a, b),
    }
}

// Where the run of site x at a place starts: with the site before it, whose run starts at `run`, or there.
fn run_of(by: &Sorting, before: u16, x: u16, run: u16, place: u16) -> u16
    requires { SiteOf by.now before × SiteOf by.now x }
    ensures { result ≡ cond (same (key_of by.now before) (key_of by.now x)) run place }
{
    if same_key(by, before, x) { run } else { place }
}

// Writes for each of the first g sites in the order where its run starts. At the first place it does not matter which site is said to
// stand before it.
fn number_runs(by: &Sorting, order: &[u16], runs: &mut [u16], g: usize)
    requires { (g ≤ length order.now) × (g ≤ length runs.old) × (g ≤ 65536) × Sited by.now.letters.now by.now.starts.now order.now g }
    ensures { RunStarts (key_of by.now) order.now runs.new g }
{
    let mut last: u16 = 0;
    let mut run: u16 = 0;
    for i in 0..g {
        let x = order[i];
        run = run_of(by, last, x, run, i as u16);
        runs[i] = run;
        last = x;
    }
}

// Sorts the first g sites in the order by their keys, and numbers their runs.
pub fn line_up(by: &Sorting, order: &mut [u16], runs: &mut [u16], g: usize)
    requires { (g ≤ length order.old) × (g ≤ length runs.old) × (g ≤ 65536) × FirstDiffer order.old g × Sited by.now.letters.now by.now.starts.now order.old g }
    ensures { Arranged (key_of by.now) order.old order.new g × RunStarts (key_of by.now) order.new runs.new g }
{
    enzyme_sort::sort(by, order, runs, g);
    number_runs(by, order, runs, g);
}
