// Linked lists of the records that have the same number in a field.
ghost use Rattle.std.specs.Prelude.{◌≡◌, ℕ, ◌+◌, ◌*◌, ◌≤◌, ◌<◌, length, get_or, set};
ghost use Rattle.lists.specs.FrameLaws.{Out};
ghost use Rattle.records.specs.Le.{number_at};
ghost use Rattle.cover_edges.specs.Chains.{Chains};

use crate::edges::Edges;
use records::u32_at;

// Links record i by its number at byte f: heads from h on, nexts from nx on.
fn link_one(edges: &[u8], i: usize, f: usize, w: &mut [u32], h: usize, nx: usize)
    requires i_bound { (i < 1048576) × (f ≤ 4) }
    requires f_in_bounds { (h + number_at 4 edges.now (8 * i + f) < length w.old) × (nx + i < length w.old) }
    ensures { w.new ≡ set (set w.old (nx + i) (get_or w.old (h + number_at 4 edges.now (8 * i + f)) 0)) (h + number_at 4 edges.now (8 * i + f)) (i + 1) }
{
    let x = u32_at(edges, 8 * i + f) as usize;
    w[nx + i] = w[h + x];
    w[h + x] = (i + 1) as u32;
}

// Links the records by their number at byte f, which is below size: heads from h on, nexts from nx on.
pub fn link(edges: &Edges, f: usize, w: &mut [u32], size: usize, h: usize, nx: usize)
    requires n_bound { (edges.now.count ≤ 1048576) × (f ≤ 4) }
    requires size_bound { (h + size ≤ nx) × (nx + edges.now.count ≤ length w.old) }
    requires by_index { (i : ℕ) → i < edges.now.count → number_at 4 edges.now.bytes.now (8 * i + f) < size }
    requires by_index_2 { (x : ℕ) → x < size → get_or w.old (h + x) 0 ≡ 0 }
    ensures chains { Chains w.new edges.now.bytes.now f edges.now.count size h nx }
    ensures by_index_3 { (i : ℕ) → Out i h (h + size) → Out i nx (nx + edges.now.count) → get_or w.new i 0 ≡ get_or w.old i 0 }
{
    for i in 0..edges.count {
        link_one(edges.bytes, i, f, w, h, nx);
    }
}
