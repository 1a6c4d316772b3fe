// The scan for cuts.
ghost use Rattle.std.specs.Prelude.{◌≡◌, drop};
ghost use Rattle.letters.specs.Letters.{has};
ghost use Rattle.enzyme_cuts.specs.Cutting.{starts_in};
ghost use Rattle.enzyme_cuts.specs.Scan.{cut_by, find_cut};

use crate::kinds::{Knife, Side};
use letters::LetterSet;

// A cut: its place, and the place behind the letter that made it.
#[derive(Clone, Copy)]
pub struct Cut {
    pub place: usize,
    pub next: usize,
}

// Whether there is a letter at i and it is in the set.
fn in_set(letters: &[u8], i: usize, set: LetterSet) -> bool
    ensures { result ≡ starts_in set (drop i letters.now) }
{
    i < letters.len() && set.contains(letters[i])
}

// Where the letter at i cuts, with next the place behind it.
fn cut_of(side: Side, i: usize, next: usize) -> usize
    ensures { result ≡ cut_by side i next }
{
    match side {
        Side::C => next,
        Side::N => i,
    }
}

// Whether a letter is in the cleave set.
fn cleaves(letter: u8, knife: Knife) -> bool
    ensures { result ≡ has knife.cleave letter }
{
    let cleave = knife.cleave;
    cleave.contains(letter)
}

// Whether there is a letter at a cut and it is in the skip set.
fn spares(letters: &[u8], place: usize, knife: Knife) -> bool
    ensures { result ≡ starts_in knife.skip (drop place letters.now) }
{
    let skip = knife.skip;
    in_set(letters, place, skip)
}

// The first cut of a letter at or behind `at`, if there is one.
pub fn next_cut(letters: &[u8], at: usize, knife: Knife) -> Option<Cut>
    ensures { result ≡ find_cut knife at (drop at letters.now) }
{
    for i in at..letters.len() {
        let next = i + 1;
        let place = cut_of(knife.side, i, next);
        if cleaves(letters[i], knife) && !spares(letters, place, knife) {
            return Some(Cut { place, next });
        }
    }
    None
}
