// Samples put in and taken out.
// `out` is the caller's buffer (no heap): `count` records stand in it, and there is room behind them.
ghost use Rattle.std.specs.Prelude.{◌+◌, ◌*◌, ◌≤◌, ◌<◌, length};
ghost use Rattle.enzyme_search.specs.Marks.{Has0, SamplesListed, SameSamples, First, MovedUp, PutIn, Thinned};

use enzyme_search::{head_at, sample};

// The record n links behind record t.
fn follow(out: &[u8], count: usize, head: usize, t: usize, n: usize) -> usize
    requires { (20 * count ≤ length out.now) × Has0 count head out.now t }
    ensures { Has0 count head out.now result }
{
    let mut at = t;
    for _ in 0..n {
        if at == 0 {
            return 0;
        }
        at = enzyme_list::behind(out, count, head, at);
    }
    at
}

// Where k is 0, the list's first record is the first sample. The answer is how many samples there are.
pub fn mark_first(marks: &mut [u32], first: usize, samples: usize, k: usize, head: u32) -> usize
    requires { (3 ≤ length marks.old) × (3 * samples ≤ length marks.old) × (k ≤ samples) × (first < 4294967296) }
    ensures { First marks.old samples first k marks.new result }
{
    if 0 < k {
        return samples;
    }
    let new = first as u32;
    marks[0] = new;
    marks[2] = head;
    if samples == 0 {
        marks[1] = 0;
        return 1;
    }
    samples
}

// One more record from sample j on, numbered from 0. The answer is how many there are now.
pub fn count_one(marks: &mut [u32], j: usize) -> u32
    requires { 3 * j + 3 ≤ length marks.old }
    ensures { SameSamples marks.old marks.new }
{
    let at = 3 * j + 1;
    let size = marks[at].saturating_add(1);
    marks[at] = size;
    size
}

// The numbers from `low` to `high` move up by three.
fn make_way(marks: &mut [u32], low: usize, high: usize)
    requires { (high + 3 ≤ length marks.old) × (low ≤ high) }
    ensures { MovedUp marks.old low high marks.new }
{
    marks.copy_within(low..high, low + 3);
}

// Record t becomes sample j: `left` records before it, `right` from it on.
fn put_in(marks: &mut [u32], samples: usize, j: usize, t: u32, head: u32, left: u32, right: u32)
    requires { (3 * samples + 3 ≤ length marks.old) × (0 < j) × (j ≤ samples) }
    ensures { PutIn marks.old samples t marks.new }
{
    let at = 3 * j;
    make_way(marks, at, 3 * samples);
    marks[at] = t;
    marks[at + 1] = right;
    marks[at + 2] = head;
    marks[at - 2] = left;
}

// The middle record of those from sample j on becomes a sample. The answer is how many samples there are.
pub fn split(
    letters: &[u8],
    out: &[u8],
    marks: &mut [u32],
    count: usize,
    head: usize,
    samples: usize,
    j: usize,
    size: u32,
) -> usize
    requires { (20 * count ≤ length out.now) × (count ≤ 1048576) × SamplesListed count head out.now marks.old samples × (3 * samples + 3 ≤ length marks.old) × (j < samples) }
    ensures { SamplesListed count head out.now marks.new result }
{
    let half = size / 2;
    let next = j + 1;
    let start = sample(marks, next);
    let middle = follow(out, count, head, start, half as usize);
    if middle == 0 {
        return samples;
    }
    let t = middle as u32;
    let key = head_at(letters, out, middle);
    put_in(marks, samples, next, t, key, half, size - half);
    samples + 1
}

// The records from sample j to the next but one.
fn both(marks: &[u32], samples: usize, j: usize) -> u32
    requires { (3 * samples ≤ length marks.now) × (j < samples) }
{
    let size = marks[3 * j + 1];
    let next = j + 1;
    if samples <= next {
        return size;
    }
    size.saturating_add(marks[3 * next + 1])
}

// Every second sample goes. The answer is how many are left.
pub fn thin(marks: &mut [u32], samples: usize) -> usize
    requires { 3 * samples ≤ length marks.old }
    ensures { Thinned marks.old samples result marks.new }
{
    let left = samples.div_ceil(2);
    for i in 0..left {
        let from = 2 * i;
        let t = marks[3 * from];
        let head = marks[3 * from + 2];
        let size = both(marks, samples, from);
        marks[3 * i] = t;
        marks[3 * i + 1] = size;
        marks[3 * i + 2] = head;
    }
    left
}
