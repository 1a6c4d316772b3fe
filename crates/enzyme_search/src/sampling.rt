// Samples of the list: records of it, of which the last one below a range is found by halving. A sample takes three numbers of
// marks: its record, how many records there are from it to the next sample, and the head of its letters.
// `out` is the caller's buffer (no heap): `count` records stand in it, and there is room behind them.
// What is sought goes as its two places and its head, of which mostly one is read.
ghost use Rattle.std.specs.Prelude.{◌≡◌, ◌*◌, ◌≤◌, ◌<◌, length};
ghost use Rattle.enzyme_cuts.specs.Cutting.{site, part};
ghost use Rattle.enzyme_cuts.specs.Work.{RangesWithin};
ghost use Rattle.enzyme_keep.specs.Buffer.{ranges_in};
ghost use Rattle.enzyme_search.specs.Marks.{sample_of, SamplesNumbered, Below};

fn letter_at(text: &[u8], i: usize) -> u32
    ensures { result < 32 }
{
    if text.len() <= i {
        return 0;
    }
    u32::from(text[i] % 32)
}

// The head of a text as a number: its length and its first five letters. Of two texts the one below has no greater head.
pub fn head_of(text: &[u8]) -> u32 {
    if 127 <= text.len() {
        return 4261412864;
    }
    let size = text.len() as u32;
    let one = size * 32 + letter_at(text, 0);
    let two = one * 32 + letter_at(text, 1);
    let three = two * 32 + letter_at(text, 2);
    let four = three * 32 + letter_at(text, 3);
    four * 32 + letter_at(text, 4)
}

// The same of record t.
pub fn head_at(letters: &[u8], out: &[u8], t: usize) -> u32
    requires { (0 < t) × (t ≤ 1048576) }
{
    let at = 20 * (t - 1);
    let start = records::u32_at(out, at) as usize;
    let end = records::u32_at(out, at + 4) as usize;
    if end < start {
        return 0;
    }
    if letters.len() < end {
        return 0;
    }
    head_of(&letters[start..end])
}

// Whether sample j is below the letters a..e, by the heads where these differ.
fn stands_below(
    letters: &[u8],
    out: &[u8],
    count: usize,
    marks: &[u32],
    samples: usize,
    j: usize,
    a: usize,
    e: usize,
    head: u32,
) -> bool
    requires { (20 * count ≤ length out.now) × RangesWithin (length letters.now) (ranges_in count out.now) × (a ≤ e) × (e ≤ length letters.now) × SamplesNumbered count marks.now samples × (j < samples) }
{
    let x = marks[3 * j + 2];
    if x < head {
        return true;
    }
    if head < x {
        return false;
    }
    let t = marks[3 * j] as usize;
    enzyme_list::order_at(letters, out, count, t - 1, a, e).is_lt()
}

// How many samples are below the letters a..e, if they rise.
fn how_many_below(
    letters: &[u8],
    out: &[u8],
    count: usize,
    marks: &[u32],
    samples: usize,
    a: usize,
    e: usize,
    head: u32,
) -> usize
    requires { (20 * count ≤ length out.now) × RangesWithin (length letters.now) (ranges_in count out.now) × (a ≤ e) × (e ≤ length letters.now) × SamplesNumbered count marks.now samples }
    ensures { result ≤ samples }
{
    let mut lo = 0;
    let mut hi = samples;
    // A while: each turn halves what is left.
    while lo < hi {
        let mid = (lo + hi) / 2;
        let next = mid + 1;
        if stands_below(letters, out, count, marks, samples, mid, a, e, head) {
            lo = next;
        } else {
            hi = mid;
        }
    }
    lo
}

// The last sample below the letters a..e, numbered from 1; 0 for none. Whatever the samples are, it is below.
pub fn last_below(
    letters: &[u8],
    out: &[u8],
    count: usize,
    marks: &[u32],
    samples: usize,
    a: usize,
    e: usize,
    head: u32,
) -> usize
    requires { (20 * count ≤ length out.now) × RangesWithin (length letters.now) (ranges_in count out.now) × (a ≤ e) × (e ≤ length letters.now) × SamplesNumbered count marks.now samples }
    ensures { Below letters.now (ranges_in count out.now) marks.now samples (part letters.now (site a e)) result }
{
    let k = how_many_below(letters, out, count, marks, samples, a, e, head);
    if k == 0 {
        return 0;
    }
    let j = k - 1;
    let t = marks[3 * j] as usize;
    let o = enzyme_list::order_at(letters, out, count, t - 1, a, e);
    if o.is_lt() {
        return k;
    }
    0
}

// The record of sample k, 0 for none.
pub fn sample(marks: &[u32], k: usize) -> usize
    requires { 3 * k ≤ length marks.now }
    ensures { result ≡ sample_of marks.now k }
{
    if k == 0 {
        return 0;
    }
    let at = k - 1;
    let t = marks[3 * at];
    t as usize
}
