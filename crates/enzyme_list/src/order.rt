// How a record stands to a stretch of letters.
// `out` is the caller's buffer (no heap): `count` records stand in it, and there is room behind them.
ghost use Rattle.std.specs.Prelude.{◌≡◌, ◌*◌, ◌≤◌, ◌<◌, length, get_or};
ghost use Rattle.enzyme_cuts.specs.Cutting.{site, part};
ghost use Rattle.enzyme_cuts.specs.Work.{RangesWithin};
ghost use Rattle.enzyme_keep.specs.Buffer.{ranges_in};
ghost use Rattle.enzyme_order.specs.Order.{compared};

use std::cmp::Ordering;

// How record j stands to the letters a..e.
pub fn order_at(letters: &[u8], out: &[u8], count: usize, j: usize, a: usize, e: usize) -> Ordering
    requires { (20 * count ≤ length out.now) × RangesWithin (length letters.now) (ranges_in count out.now) × (j < count) × (a ≤ e) × (e ≤ length letters.now) }
    ensures { result ≡ compared (part letters.now (get_or (ranges_in count out.now) j (site 0 0))) (part letters.now (site a e)) }
{
    let start = records::u32_at(out, 20 * j) as usize;
    let end = records::u32_at(out, 20 * j + 4) as usize;
    enzyme_order::order(&letters[start..end], &letters[a..e])
}
