// A set without semi: equal sites have one name, and windows of sites are told apart by the names.
ghost use Rattle.std.specs.Prelude.{◌≡◌, false, ℕ, suc, ◌≤◌, ◌<◌, length};
ghost use Rattle.enzyme_keep.specs.Steps.{after};
ghost use Rattle.enzyme_tables.specs.Listed.{DigestsListed};
ghost use Rattle.enzyme_windows.specs.Pieces.{pieces};
ghost use Rattle.enzyme_windows.specs.Weights.{class_weight};
ghost use Rattle.enzyme_once.specs.Once.{each_once};
ghost use Rattle.enzyme_sites.specs.Starts.{Starts};
ghost use Rattle.enzyme_levels.specs.Levels.{LevelRanked};
ghost use Rattle.enzyme_picks.specs.Picks.{sizes_put};

use enzyme_cuts::Knife;
use enzyme_keep::Terms;
use enzyme_weights::Level;

// Lists the windows of 1 to missed + 1 of the m sites, size by size: `first` of them are ranked by windows of one site.
fn list_levels(
    letters: &[u8],
    knife: Knife,
    starts: &[u32],
    order: &mut [u16],
    other: &mut [u16],
    name: &[u16],
    rank: &mut [u16],
    share: &mut [u8],
    first: usize,
    m: usize,
    missed: u8,
    terms: Terms,
    out: &mut [u8],
) -> Option<usize>
    requires { (length letters.now ≤ 65536) × (missed ≤ 16) × LevelRanked (pieces knife letters.now) letters.now starts.now order.old other.old name.now rank.old share.old 1 first m × (m ≤ length order.old) × (m ≤ length other.old) × (m ≤ length rank.old) × (m ≤ length share.old) }
    ensures { after result out.new ≡ sizes_put (length letters.now) terms.protein starts.now (λ (y i : ℕ). class_weight (pieces knife letters.now) (suc y) i) terms.minimum terms.maximum m 0 (suc missed) 0 out.old }
{
    let n = letters.len();
    let mut g = first;
    let mut k = 0;
    for over in 0..missed {
        let level = Level {
            order: &*order,
            runs: &*other,
            rank: &*rank,
            share: &*share,
            g,
        };
        k = enzyme_picks::list_size(starts, &level, m, over, n, terms, out, k)?;
        let sites = usize::from(over) + 1;
        g = enzyme_levels::next_level(
            letters, starts, m, sites, g, order, other, name, rank, share,
        );
    }
    let level = Level {
        order: &*order,
        runs: &*other,
        rank: &*rank,
        share: &*share,
        g,
    };
    enzyme_picks::list_size(starts, &level, m, missed, n, terms, out, k)
}

// With tables that are lent: two for the order of the m sites; their names, and the ranks of windows; how many sites each window shares
// with an earlier one; and what was seen of their letters.
pub(crate) fn list_windows(
    letters: &[u8],
    knife: Knife,
    missed: u8,
    terms: Terms,
    out: &mut [u8],
    starts: &[u32],
    m: usize,
    order: &mut [u16],
    other: &mut [u16],
    name: &mut [u16],
    rank: &mut [u16],
    share: &mut [u8],
    seen: &mut [u8],
) -> Option<usize>
    requires { (length letters.now ≤ 65536) × (missed ≤ 16) × Starts knife letters.now starts.now m × (m ≤ length order.old) × (m ≤ length other.old) × (m ≤ length name.old) × (m ≤ length rank.old) × (m ≤ length share.old) }
    ensures { DigestsListed letters.now terms (each_once knife false missed letters.now) out.old result out.new }
{
    let g = enzyme_levels::first_level(letters, starts, m, order, other, name, rank, share, seen);
    list_levels(
        letters, knife, starts, order, other, name, rank, share, g, m, missed, terms, out,
    )
}
