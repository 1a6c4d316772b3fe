// Windows of more and more sites. The five tables are lent one by one: the callers keep them apart, and a level is told of each by itself.
ghost use Rattle.std.specs.Prelude.{◌≡◌, List, ℕ, ◌+◌, ◌≤◌, ◌<◌, length, get_or};
ghost use Rattle.enzyme_keys.specs.Keys.{SiteWithin, letters_at, sort_key};
ghost use Rattle.enzyme_rows.specs.Steps.{RunsRanked, OneName};
ghost use Rattle.enzyme_sifted.specs.Sifted.{Sifted};
ghost use Rattle.enzyme_levels.specs.Levels.{TextsPlaced, SitesReady, LevelRanked};

use enzyme_keys::{Key, Sorting};

// Sorts the first g sites by their keys, ranks them by their runs, and writes n for those whose key an earlier site has.
fn rank_sites(
    key: Key,
    letters: &[u8],
    starts: &[u32],
    name: &[u16],
    rank: &mut [u16],
    order: &mut [u16],
    other: &mut [u16],
    share: &mut [u8],
    g: usize,
    m: usize,
    n: u8,
)
    requires { SitesReady letters.now starts.now order.old g m × (m ≤ length rank.old) × (m ≤ length order.old) × (m ≤ length other.old) × (m ≤ length share.old) }
    ensures { RunsRanked (sort_key key letters.now starts.now name.now rank.old) order.old order.new other.new rank.old rank.new share.old share.new g n }
{
    let by = Sorting {
        key,
        letters,
        starts,
        name,
        rank: &*rank,
    };
    enzyme_runs::line_up(&by, order, other, g);
    enzyme_rows::bring(order, other, rank, g);
    enzyme_rows::mark(order, other, share, g, n);
}

// Each of m sites by its own name, with nothing shared; those that may have the letters of another stand first in the order. Says how
// many these are.
fn sifted_sites(
    letters: &[u8],
    starts: &[u32],
    name: &mut [u16],
    rank: &mut [u16],
    order: &mut [u16],
    other: &mut [u16],
    share: &mut [u8],
    seen: &mut [u8],
    m: usize,
) -> usize
    requires { (m ≤ 65536) × (m ≤ length name.old) × (m ≤ length rank.old) × (m ≤ length order.old) × (m ≤ length other.old) × (m ≤ length share.old) × ((z : ℕ) → z < m → SiteWithin letters.now starts.now z) }
    ensures { Sifted letters.now starts.now order.new m result × ((i : ℕ) → i < m → (get_or name.new i 0 ≡ i) × (get_or share.new i 0 ≡ 0)) }
{
    let g = enzyme_sifted::sift(letters, starts, m, order, name, seen);
    enzyme_rows::count_up(name, share, m);
    enzyme_strewn::strew(letters, starts, order, other, rank, g);
    g
}

// Ranks the first g sites by their letters; those with the same letters get the same name.
fn first_names(
    letters: &[u8],
    starts: &[u32],
    name: &mut [u16],
    rank: &mut [u16],
    order: &mut [u16],
    other: &mut [u16],
    share: &mut [u8],
    g: usize,
    m: usize,
)
    requires { SitesReady letters.now starts.now order.old g m × (m ≤ length rank.old) × (m ≤ length order.old) × (m ≤ length other.old) × (m ≤ length share.old) × (m ≤ length name.old) }
    ensures { RunsRanked (letters_at letters.now starts.now) order.old order.new other.new rank.old rank.new share.old share.new g 1 × OneName (letters_at letters.now starts.now) order.old name.old name.new g }
{
    rank_sites(
        Key::Letters,
        letters,
        starts,
        name,
        rank,
        order,
        other,
        share,
        g,
        m,
        1,
    );
    enzyme_rows::name_runs(order, other, name, g);
}

// Windows of one site: the sites by their letters, and their names. Says how many stand in the order; `other` has the starts of their runs.
pub fn first_level(
    letters: &[u8],
    starts: &[u32],
    m: usize,
    order: &mut [u16],
    other: &mut [u16],
    name: &mut [u16],
    rank: &mut [u16],
    share: &mut [u8],
    seen: &mut [u8],
) -> usize
    requires { ((ts : List (List ℕ)) × TextsPlaced ts letters.now starts.now m) × (m ≤ 65536) × (m ≤ length order.old) × (m ≤ length other.old) × (m ≤ length name.old) × (m ≤ length rank.old) × (m ≤ length share.old) }
    ensures { (ts : List (List ℕ)) → TextsPlaced ts letters.now starts.now m → LevelRanked ts letters.now starts.now order.new other.new name.new rank.new share.new 1 result m }
{
    let g = sifted_sites(letters, starts, name, rank, order, other, share, seen, m);
    first_names(letters, starts, name, rank, order, other, share, g, m);
    g
}

// From windows of k sites to those of k + 1: of the g sites in the order those go on that have an equal, and are ranked anew. Says how many.
pub fn next_level(
    letters: &[u8],
    starts: &[u32],
    m: usize,
    k: usize,
    g: usize,
    order: &mut [u16],
    other: &mut [u16],
    name: &[u16],
    rank: &mut [u16],
    share: &mut [u8],
) -> usize
    requires { ((ts : List (List ℕ)) × LevelRanked ts letters.now starts.now order.old other.old name.now rank.old share.old k g m) × (k < 17) × (m ≤ length order.old) × (m ≤ length other.old) × (m ≤ length rank.old) × (m ≤ length share.old) }
    ensures { (ts : List (List ℕ)) → LevelRanked ts letters.now starts.now order.old other.old name.now rank.old share.old k g m → LevelRanked ts letters.now starts.now order.new other.new name.now rank.new share.new (k + 1) result m }
{
    let old = k as u8;
    let next = k + 1;
    let n = next as u8;
    let kept = enzyme_runs::keep(order, other, g, m, old);
    rank_sites(
        Key::Names(k),
        letters,
        starts,
        name,
        rank,
        order,
        other,
        share,
        kept,
        m,
        n,
    );
    kept
}
