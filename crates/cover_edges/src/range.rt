// The first edge record, and the first mark, with a field out of range.
ghost use Rattle.std.specs.Prelude.{◌≡◌, ◌/◌, ◌≤◌, length};
ghost use Rattle.cover_edges.specs.Edges.{edge_at, bad_edge, first_bad_edge, first_bad_mark};

use crate::edges::Edges;

fn is_bad_edge(edges: &Edges, i: usize, groups: usize, metas: usize) -> bool
    requires { i ≤ 1048576 }
    ensures { result ≡ bad_edge groups metas (edge_at edges.now.bytes.now i) }
{
    let group = edges.group(i);
    let meta = edges.meta(i);
    (groups <= group) | (metas <= meta)
}

// The first record whose group or meta-peptide is not below its count, or how many records there are.
pub fn first_bad_edge(edges: &[u8], groups: usize, metas: usize) -> usize
    requires { length edges.now / 8 ≤ 1048576 }
    ensures { result ≡ first_bad_edge edges.now groups metas }
{
    let all = Edges::of(edges);
    for i in 0..all.count {
        if is_bad_edge(&all, i, groups, metas) {
            return i;
        }
    }
    all.count
}

// The first mark that is not 0 or 1, or how many there are.
pub fn first_bad_mark(marks: &[u8]) -> usize
    ensures { result ≡ first_bad_mark marks.now }
{
    marks
        .iter()
        .position(|mark| 1 < *mark)
        .unwrap_or(marks.len())
}
