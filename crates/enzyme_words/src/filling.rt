// Lengths from which on a stretch stands once.
ghost use Rattle.std.specs.Prelude.{◌≡◌, cond, ℕ, ◌+◌, ◌-◌, ◌≤◌, ◌<◌, length, get_or, eqb};
ghost use Rattle.enzyme_words.specs.Words.{Zeros, WordsTallied, Twice, WordsCoded, EndOfSingle, Far};

use crate::coding::{digit, first, place, power};
use crate::width::width;

// None, one, or more.
fn raised(x: u8) -> u8
    ensures { result ≡ cond (eqb x 0) 1 2 }
{
    if x == 0 { 1 } else { 2 }
}

// Counts the words at their places in a table, and lays the place of each where it starts. `rest` is the number of the word
// without its last letter.
fn tally(letters: &[u8], q: usize, far: &mut [u32], count: &mut [u8])
    requires { (1 ≤ q) × (q ≤ 13) × (length letters.now ≤ length far.old) × (0 < length count.old) × (length count.old ≤ 131072) × Zeros count.old }
    ensures { WordsCoded letters.now q (length count.old) (length letters.now) far.new × Twice letters.now q (length count.old) count.new }
{
    let n = letters.len();
    if n < q {
        return;
    }
    let top = power(q - 1);
    let mut rest = first(letters, q - 1);
    for i in 0..n + 1 - q {
        let word = 26 * rest + digit(letters[i + q - 1]);
        let at = place(word, count.len());
        let code = at as u32;
        far[i] = code;
        count[at] = raised(count[at]);
        rest = word - top * digit(letters[i]);
    }
}

// Where a stretch from i or before has to end to stand once: behind the word at i where that stands once, else at r as before.
fn end_at(i: usize, q: usize, n: usize, code: u32, count: &[u8], r: usize) -> usize
    requires { (i ≤ n) × (n ≤ 65536) × (q ≤ 13) × (i + q ≤ n → code < length count.now) }
    ensures { EndOfSingle i q n code count.now r result }
{
    if n < i + q {
        return r;
    }
    let at = records::wide(code);
    if count[at] == 1 { i + q } else { r }
}

// From the last start down, each start's number in the place of its word's.
fn sweep(letters: &[u8], q: usize, far: &mut [u32], count: &[u8])
    requires { (1 ≤ q) × (q ≤ 13) × (length letters.now ≤ 65536) × (length letters.now ≤ length far.old) × (0 < length count.now) × WordsCoded letters.now q (length count.now) (length letters.now) far.old × Twice letters.now q (length count.now) count.now }
    ensures { Far letters.now far.new }
{
    let n = letters.len();
    let mut r = n + 1;
    for i in (0..n).rev() {
        r = end_at(i, q, n, far[i], count, r);
        let x = (r - i - 1) as u32;
        far[i] = x;
    }
}

// For each start a length such that no longer stretch from it stands at another start, by words of one length; count is zero.
pub fn fill_far(letters: &[u8], far: &mut [u32], count: &mut [u8])
    requires { (length letters.now ≤ 65536) × (length letters.now ≤ length far.old) × (0 < length count.old) × (length count.old ≤ 131072) × Zeros count.old }
    ensures { Far letters.now far.new × (length far.new ≡ length far.old) }
{
    let q = width(letters);
    tally(letters, q, far, count);
    sweep(letters, q, far, count);
}
