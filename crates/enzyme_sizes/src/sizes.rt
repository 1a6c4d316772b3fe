// The parts of windows of more and more sites.
// Each table is lent on its own, for a level reads `name` and writes the others, and what is offered reads all but `name`; they have
// places for more than m sites (no heap).
ghost use Rattle.std.specs.Prelude.{suc, ◌≤◌, ◌<◌, length};
ghost use Rattle.enzyme_windows.specs.Pieces.{pieces};
ghost use Rattle.enzyme_samples.specs.Ready.{ReadyOf, OffersOf};
ghost use Rattle.enzyme_parts.specs.Walk.{sites_in};
ghost use Rattle.enzyme_parts.specs.Weighed.{weigh_from};
ghost use Rattle.enzyme_semi.specs.WeightLaws.{weight_of};
ghost use Rattle.enzyme_sizes.specs.Told.{TablesLong, LevelTold};

use crate::levels::raise;
use enzyme_cuts::Knife;
use enzyme_samples::{Run, Source};
use enzyme_semi::offer_owns;

// Offers those of 2 to missed + 1 sites. The tables are those of one site, with g sites in the order.
fn offer_more(
    looked: bool,
    source: &Source,
    knife: Knife,
    starts: &[u32],
    m: usize,
    missed: u8,
    out: &mut [u8],
    marks: &mut [u32],
    order: &mut [u16],
    other: &mut [u16],
    name: &[u16],
    rank: &mut [u16],
    share: &mut [u8],
    first: usize,
    run: Run,
) -> Run
    requires { (m < length starts.now) × (missed ≤ 16) × TablesLong looked order.old other.old rank.old share.old m × LevelTold looked (pieces knife source.now.letters.now) source.now.letters.now starts.now order.old other.old name.now rank.old share.old 1 first m × ReadyOf source.now (weigh_from (weight_of looked (pieces knife source.now.letters.now)) 1 missed (sites_in starts.now m)) run out.old marks.old }
    ensures { OffersOf source.now (weigh_from (weight_of looked (pieces knife source.now.letters.now)) 1 missed (sites_in starts.now m)) run out.old marks.old result out.new marks.new }
{
    let mut g = first;
    let mut at = run;
    for k in 1..=missed {
        let sites = k as usize;
        g = raise(
            looked,
            source.letters,
            knife,
            starts,
            m,
            sites,
            g,
            order,
            other,
            name,
            rank,
            share,
        );
        at = offer_owns(
            source, starts, order, other, rank, share, g, m, k, out, marks, at,
        );
    }
    at
}

// Offers those of 1 to missed + 1 sites.
pub fn offer_sizes(
    looked: bool,
    source: &Source,
    knife: Knife,
    starts: &[u32],
    m: usize,
    missed: u8,
    out: &mut [u8],
    marks: &mut [u32],
    order: &mut [u16],
    other: &mut [u16],
    name: &[u16],
    rank: &mut [u16],
    share: &mut [u8],
    first: usize,
    run: Run,
) -> Run
    requires { (m < length starts.now) × (missed ≤ 16) × TablesLong looked order.old other.old rank.old share.old m × LevelTold looked (pieces knife source.now.letters.now) source.now.letters.now starts.now order.old other.old name.now rank.old share.old 1 first m × ReadyOf source.now (weigh_from (weight_of looked (pieces knife source.now.letters.now)) 0 (suc missed) (sites_in starts.now m)) run out.old marks.old }
    ensures { OffersOf source.now (weigh_from (weight_of looked (pieces knife source.now.letters.now)) 0 (suc missed) (sites_in starts.now m)) run out.old marks.old result out.new marks.new }
{
    let at = offer_owns(
        source, starts, order, other, rank, share, first, m, 0, out, marks, run,
    );
    offer_more(
        looked, source, knife, starts, m, missed, out, marks, order, other, name, rank, share,
        first, at,
    )
}
