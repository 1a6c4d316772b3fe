// The tables of a set without semi. Those of the letters are as long as the protein; those of the sites need only be as long as there
// are sites, of which there are far fewer than letters, and a table takes time to be made.
ghost use Rattle.std.specs.Prelude.{◌≡◌, false, ◌≤◌, ◌<◌, length};
ghost use Rattle.enzyme_tables.specs.Listed.{DigestsListed};
ghost use Rattle.enzyme_once.specs.Once.{each_once};
ghost use Rattle.enzyme_sites.specs.Starts.{Starts};

use crate::windows::list_windows;
use enzyme_cuts::Knife;
use enzyme_keep::Terms;

// Lists the windows of m sites, with tables of N.
fn sites_with<const N: usize>(
    letters: &[u8],
    knife: Knife,
    missed: u8,
    terms: Terms,
    out: &mut [u8],
    starts: &[u32],
    m: usize,
    seen: &mut [u8],
) -> Option<usize>
    requires { (length letters.now ≤ 65536) × (missed ≤ 16) × Starts knife letters.now starts.now m × (m ≤ N) × (N ≤ 65536) }
    ensures { DigestsListed letters.now terms (each_once knife false missed letters.now) out.old result out.new }
{
    let mut order = [0u16; N];
    let mut other = [0u16; N];
    let mut name = [0u16; N];
    let mut rank = [0u16; N];
    let mut share = [0u8; N];
    list_windows(
        letters, knife, missed, terms, out, starts, m, &mut order, &mut other, &mut name,
        &mut rank, &mut share, seen,
    )
}

// With the tables for 1,024, 8,192 or 65,536 sites. It goes from one size to the next by a call of itself, so that each has its stack to
// itself: the compiler joins no function that has large tables into one that calls itself.
fn sites_within(
    room: usize,
    letters: &[u8],
    knife: Knife,
    missed: u8,
    terms: Terms,
    out: &mut [u8],
    starts: &[u32],
    m: usize,
    seen: &mut [u8],
) -> Option<usize>
    requires { (length letters.now ≤ 65536) × (missed ≤ 16) × Starts knife letters.now starts.now m × (m ≤ 65536) × (1 ≤ room) × (room ≤ 524288) }
    ensures { DigestsListed letters.now terms (each_once knife false missed letters.now) out.old result out.new }
{
    if room < m {
        return sites_within(
            8 * room,
            letters,
            knife,
            missed,
            terms,
            out,
            starts,
            m,
            seen,
        );
    }
    if room <= 1024 {
        return sites_with::<1024>(letters, knife, missed, terms, out, starts, m, seen);
    }
    if room <= 8192 {
        return sites_with::<8192>(letters, knife, missed, terms, out, starts, m, seen);
    }
    sites_with::<65536>(letters, knife, missed, terms, out, starts, m, seen)
}

// With tables that are lent: where the sites start, and what was seen of their letters.
fn windows_over(
    letters: &[u8],
    knife: Knife,
    missed: u8,
    terms: Terms,
    out: &mut [u8],
    starts: &mut [u32],
    seen: &mut [u8],
) -> Option<usize>
    requires { (length letters.now ≤ 65536) × (missed ≤ 16) × (length letters.now < length starts.old) }
    ensures { DigestsListed letters.now terms (each_once knife false missed letters.now) out.old result out.new }
{
    let m = enzyme_sites::sites(letters, knife, starts);
    sites_within(1024, letters, knife, missed, terms, out, starts, m, seen)
}

// The same with a table of starts, one longer than the letters, and one of what was seen.
pub fn windows_with<const STARTS: usize, const SEEN: usize>(
    letters: &[u8],
    knife: Knife,
    missed: u8,
    terms: Terms,
    out: &mut [u8],
) -> Option<usize>
    requires { (length letters.now < STARTS) × (STARTS ≤ 65537) × (SEEN ≤ 65536) × (missed ≤ 16) }
    ensures { DigestsListed letters.now terms (each_once knife false missed letters.now) out.old result out.new }
{
    let mut starts = [0u32; STARTS];
    let mut seen = [0u8; SEEN];
    windows_over(letters, knife, missed, terms, out, &mut starts, &mut seen)
}
