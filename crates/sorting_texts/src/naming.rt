// The texts of names, number by number: no zero stands in a text, so that a zero tells its end.
ghost use Rattle.std.specs.Prelude.{◌≡◌, cond, ◌/◌, ◌%◌, ◌≤◌, eqb, length, get_or};
ghost use Rattle.sorting_spec.specs.Joined.{name_of};
ghost use Rattle.sorting_texts.specs.Text.{tag_in, entry_text};
ghost use Rattle.sorting_texts.specs.Walk.{Stood, WalksOn};

use crate::text;

// A number, and where the walk goes on. It is 0 where nothing is left: no zero stands in a text (`entry_whole`), and laws of walks
// compare such numbers, so it is no Option.
#[derive(Clone, Copy)]
pub struct Step {
    pub number: u32,
    pub at: usize,
    pub i: usize,
}

// How many numbers the tag has.
pub fn tag_length(keys: &[u32]) -> usize
    ensures { result ≡ length (tag_in keys.now) }
{
    for i in 0..16 {
        if text::number_at(keys, i) == 0 {
            return i;
        }
    }
    16
}

// Byte k of the x-th name; past its 64 bytes 0.
fn name_byte(letters: &[u8], x: u32, k: usize) -> u8
    ensures { result ≡ get_or (name_of letters.now x) k 0 }
{
    if 64 <= k {
        return 0;
    }
    records::byte_at(letters, x as usize * 64 + k)
}

// How many numbers of an entry's text are the tag's, of t.
fn tag_part(t: usize, x: u32) -> usize
    ensures { result ≡ cond (eqb (x / 2 % 2) 1) t 0 }
{
    if x / 2 % 2 == 1 { t } else { 0 }
}

// The number at place i of an entry's text; at its end 0.
pub fn entry_number(letters: &[u8], keys: &[u32], t: usize, x: u32, i: usize) -> u32
    requires { (t ≡ length (tag_in keys.now)) × (i ≤ length (entry_text letters.now keys.now x)) }
    ensures { result ≡ get_or (entry_text letters.now keys.now x) i 0 }
{
    let p = tag_part(t, x);
    if i < p {
        text::number_at(keys, i)
    } else {
        u32::from(name_byte(letters, x / 4, i - p))
    }
}

// The number that the walk along a group's text stands at, 0 where nothing is left, and where it goes on.
pub fn walk(letters: &[u8], keys: &[u32], t: usize, at: usize, i: usize) -> Step
    requires { Stood letters.now keys.now t at i }
    ensures { WalksOn letters.now keys.now at i result.number result.at result.i }
{
    let n = keys.len();
    if n <= at {
        return Step { number: 0, at, i };
    }
    let x = text::number_at(keys, at);
    let number = entry_number(letters, keys, t, x, i);
    if number != 0 {
        return Step {
            number,
            at,
            i: i + 1,
        };
    }
    let next = at + 1;
    if (x % 2 == 1) | (n <= next) {
        return Step { number: 0, at, i };
    }
    Step {
        number: 47,
        at: next,
        i: 0,
    }
}
