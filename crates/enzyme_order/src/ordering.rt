// How stretches of letters stand to one another.
ghost use Rattle.std.specs.Prelude.{◌≡◌};
ghost use Rattle.enzyme_order.specs.Order.{compared};

use std::cmp::Ordering;

// By length, then letters.
pub fn order(a: &[u8], b: &[u8]) -> Ordering
    ensures { result ≡ compared a.now b.now }
{
    a.len().cmp(&b.len()).then_with(|| a.cmp(b))
}
