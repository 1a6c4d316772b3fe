// Stretches of the slice set to numbers.
ghost use Rattle.std.specs.Prelude.{◌+◌, ◌-◌, ◌*◌, ◌≤◌, length};
ghost use Rattle.records.specs.Le.{number_at};
ghost use Rattle.cover_edges.specs.PutLaws.{Puts};

use cover_edges::Edges;
use records::u32_at;

// The numbers at byte f of the records go to w from place a on.
pub(crate) fn copy_field(edges: &Edges, f: usize, w: &mut [u32], a: usize)
    requires { (a + edges.now.count ≤ length w.old) × (edges.now.count ≤ 1048576) × (f ≤ 4) }
    ensures { Puts (λ i. number_at 4 edges.now.bytes.now (8 * i + f)) a (a + edges.now.count) w.old w.new }
{
    for i in 0..edges.count {
        w[a + i] = u32_at(edges.bytes, 8 * i + f);
    }
}

// The numbers n - 1, .., 0 go to w from place a on.
pub(crate) fn numbers(w: &mut [u32], a: usize, n: usize)
    requires { (a + n ≤ length w.old) × (n ≤ 4294967295) }
    ensures { Puts (λ i. n - 1 - i) a (a + n) w.old w.new }
{
    for i in 0..n {
        w[a + i] = (n - 1 - i) as u32;
    }
}
