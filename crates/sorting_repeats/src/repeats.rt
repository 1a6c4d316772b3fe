// The first name that stands twice.
ghost use Rattle.std.specs.Prelude.{◌≡◌, [], ◌∷◌, ◌++◌, ◌+◌, ◌≤◌, length, take, drop, replicate};
ghost use Rattle.std.proofs.Math.Seq.{slice};
ghost use Rattle.lists.specs.Lists.{up_from};
ghost use Rattle.records.specs.Outcome.{outcome};
ghost use Rattle.sorting_spec.specs.Joined.{name_of};
ghost use Rattle.sorting_texts.specs.Text.{le_by};
ghost use Rattle.sorting_spec.specs.Repeats.{first_repeat};
ghost use Rattle.sorting_repeats.specs.Repeating.{repeat_outcome};
ghost use Rattle.sorting_repeats.specs.LeastLaws.{lesser, least};

use sorting_texts::{By, Unfit};

// The least so far, after x behind p.
fn lesser_of(by: By, letters: &[u8], keys: &[u32], b: u32, p: u32, x: u32) -> u32
    ensures { result ≡ lesser (le_by by letters.now keys.now) b p x }
{
    if sorting_compare::le(by, letters, keys, x, p) {
        b.min(x)
    } else {
        b
    }
}

// The least number of the sorted w[..hi] that stands right after an equal, or `none` if that is less.
fn least_repeat(by: By, letters: &[u8], w: &[u32], hi: usize, e: usize, none: u32) -> u32
    requires { (hi ≤ length w.now) × (e ≤ length w.now) }
    ensures { result ≡ least (le_by by letters.now (drop e w.now)) none (slice 0 hi w.now) }
{
    if hi == 0 {
        return none;
    }
    let mut p = w[0];
    let mut b = none;
    for i in 1..hi {
        let x = w[i];
        b = lesser_of(by, letters, &w[e..], b, p, x);
        p = x;
    }
    b
}

// Writes 0, 1, 2, .. to w[..n].
fn count_up(w: &mut [u32], n: u32)
    requires { n ≤ length w.old }
    ensures { (take n w.new ≡ up_from 0 n) × (drop n w.new ≡ drop n w.old) }
{
    for i in 0..n {
        w[i as usize] = i;
    }
}

// The first of n names that repeats, or n, as `first_repeat` of the specs is. The first 2n numbers of w are zero at the end.
fn repeat_among(names: &[u8], w: &mut [u32], n: u32) -> u32
    requires { n + n ≤ length w.old }
    ensures { (result ≡ first_repeat (name_of names.now) n) × (w.new ≡ replicate (n + n) 0 ++ drop (n + n) w.old) }
{
    let k = n as usize;
    let e = k + k;
    count_up(w, n);
    sorting_merge::sort_range(By::Name, names, w, 0, k, k, e);
    let r = least_repeat(By::Name, names, w, k, e, n);
    records::clear(&mut w[..e]);
    r
}

// The first of the names, records of 64 bytes, that equals an earlier one. Two numbers of w a name are needed, and are zero at
// the end.
pub fn first_repeated(names: &[u8], w: &mut [u32]) -> Result<Option<usize>, Unfit>
    ensures { outcome result (w.new ∷ []) ≡ repeat_outcome names.now w.old }
{
    let n = names.len() / 64;
    let roomy = (n <= 4294967295) & (n <= w.len() / 2);
    if !roomy {
        return Err(Unfit);
    }
    let count = n as u32;
    let r = repeat_among(names, w, count);
    Ok((r < count).then_some(r as usize))
}
