// How many windows one stands for.
ghost use Rattle.std.specs.Prelude.{◌≡◌, suc, ◌<◌, get_or};
ghost use Rattle.enzyme_weights.specs.Weights.{weight_in};
ghost use Rattle.enzyme_semi.specs.Tables.{TablesServe};

use enzyme_weights::Level;

// How many sites a window from site i shares with one from an earlier site; none behind the end.
fn shared(share: &[u8], i: usize) -> u8
    ensures { result ≡ get_or share.now i 0 }
{
    if i < share.len() { share[i] } else { 0 }
}

// The weight of the window of missed + 1 sites from site i of m: 0 where an earlier site starts an equal one, else how many are equal to it. The
// tables may be too short, if no site stands in the order.
pub(crate) fn weight_of(
    order: &[u16],
    runs: &[u16],
    rank: &[u16],
    share: &[u8],
    g: usize,
    m: usize,
    missed: u8,
    i: usize,
) -> u32
    requires { TablesServe order.now runs.now rank.now share.now g m × (i < m) }
    ensures { result ≡ weight_in order.now runs.now rank.now share.now g (suc missed) i }
{
    if missed < shared(share, i) {
        return 0;
    }
    if g == 0 {
        return 1;
    }
    let level = Level {
        order,
        runs,
        rank,
        share,
        g,
    };
    level.new_weight(i)
}
