// How long the words are. Any length is right; nothing is proved of this one but that its numbers fit.
ghost use Rattle.std.specs.Prelude.{◌≤◌, ◌<◌, length};

use crate::coding::digit;

// Marks the letters that occur.
fn mark(letters: &[u8], seen: &mut [u8; 26]) {
    for x in letters {
        let at = digit(*x) as usize;
        seen[at] = 1;
    }
}

// How many are marked.
fn marked(seen: &[u8; 26]) -> usize {
    seen.iter().filter(|x| **x == 1).count()
}

fn two_or_more(kinds: usize) -> usize
    ensures { 2 ≤ result }
{
    kinds.max(2)
}

// The least length, up to 13, of which there are more than `wanted` words over so many kinds of letters.
fn enough(kinds: usize, wanted: usize) -> usize
    requires { 2 ≤ kinds }
    ensures { (1 ≤ result) × (result ≤ 13) }
{
    let mut left = wanted / kinds;
    for q in 1..13 {
        if left == 0 {
            return q;
        }
        left = left / kinds;
    }
    13
}

// A length of which there are more than two and a half times as many words as starts: then most of those that stand stand once.
pub(crate) fn width(letters: &[u8]) -> usize
    requires { length letters.now ≤ 65536 }
    ensures { (1 ≤ result) × (result ≤ 13) }
{
    let mut seen = [0 as u8; 26];
    mark(letters, &mut seen);
    enough(two_or_more(marked(&seen)), 5 * letters.len() / 2)
}
