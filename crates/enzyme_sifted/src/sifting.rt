// Sites sifted by their codes before they are sorted by their letters.
ghost use Rattle.std.specs.Prelude.{ℕ, ◌≤◌, ◌<◌, length};
ghost use Rattle.enzyme_keys.specs.Keys.{SiteWithin};
ghost use Rattle.enzyme_sifted.specs.Sifted.{Sifted};

use crate::{counting, picking};

// Writes the sites that may have the letters of another to the front of order, rising; says how many there are. Whatever stands in
// `seen`, none is missed; with zeros fewer are taken in vain.
pub fn sift(
    letters: &[u8],
    starts: &[u32],
    m: usize,
    order: &mut [u16],
    codes: &mut [u16],
    seen: &mut [u8],
) -> usize
    requires { (m ≤ 65536) × (m ≤ length order.old) × (m ≤ length codes.old) × ((z : ℕ) → z < m → SiteWithin letters.now starts.now z) }
    ensures { Sifted letters.now starts.now order.new m result }
{
    counting::count(letters, starts, m, codes, seen);
    picking::pick(codes, seen, m, order)
}
