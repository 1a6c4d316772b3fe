// The scan for sites, letter by letter.
ghost use Rattle.std.specs.Prelude.{◌≡◌, ◌+◌, ◌≤◌, ◌<◌, length, drop};
ghost use Rattle.enzyme_windows.specs.Pieces.{cleft, between};
ghost use Rattle.enzyme_sites.specs.Starts.{Starts};
ghost use Rattle.enzyme_sites.specs.Scanning.{ends_site};

use enzyme_cuts::{Knife, Side};

// The letter that has to be in the cleave set.
// Not `cut_of` of enzyme_cuts: that answers a place, this a letter.
fn cleft_of(side: Side, b: u8, c: u8) -> u8
    ensures { result ≡ cleft side b c }
{
    match side {
        Side::C => b,
        Side::N => c,
    }
}

// Whether there is a cut between two letters.
fn cuts(knife: Knife, b: u8, c: u8) -> bool
    ensures { result ≡ between knife b c }
{
    let d = cleft_of(knife.side, b, c);
    knife.cleave.contains(d) && !knife.skip.contains(c)
}

// Whether a site ends behind the letter at j, which is not the last.
fn ends_at(letters: &[u8], knife: Knife, j: usize) -> bool
    requires { j + 1 < length letters.now }
    ensures { result ≡ ends_site knife (drop j letters.now) }
{
    cuts(knife, letters[j], letters[j + 1])
}

// Writes where each non-empty site starts, and behind them where the last one ends; says how many there are.
pub fn sites(letters: &[u8], knife: Knife, starts: &mut [u32]) -> usize
    requires { (length letters.now ≤ 65536) × (length letters.now + 1 ≤ length starts.old) }
    ensures { Starts knife letters.now starts.new result }
{
    let n = letters.len();
    starts[0] = 0;
    if n == 0 {
        return 0;
    }
    let last = n - 1;
    let mut m = 0;
    for j in 0..last {
        if ends_at(letters, knife, j) {
            let place = (j + 1) as u32;
            m += 1;
            starts[m] = place;
        }
    }
    m += 1;
    let end = n as u32;
    starts[m] = end;
    m
}
