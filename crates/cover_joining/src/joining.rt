// Nodes joined into parts, each by one number from place p of the work memory on: a node that is not above it. The lowest node of a
// part names itself.
ghost use Rattle.std.specs.Prelude.{◌∷◌, ◌+◌, ◌≤◌, ◌<◌, length};
ghost use Rattle.cover_joining.specs.Joining.{Forest, LowestFound, Joined, nodes, edge_links};
ghost use Rattle.cover_edges.specs.PutLaws.{Puts};
ghost use Rattle.cover_edges.specs.RangeLaws.{InRange};

use cover_edges::Edges;

// Each of n nodes is a part of its own.
pub fn each_alone(w: &mut [u32], p: usize, n: usize)
    requires { (p + n ≤ length w.old) × (n ≤ 4294967295) }
    ensures { Puts (λ x. x) p (p + n) w.old w.new }
{
    for x in 0..n {
        w[p + x] = x as u32;
    }
}

// The lowest node of the part of x. Each node on the way is led past the one that it named, so that later ways are half as long.
pub fn lowest(w: &mut [u32], p: usize, n: usize, x: usize) -> usize
    requires forest { Forest w.old p n }
    requires x_lt_n { x < n }
    ensures { LowestFound w.old w.new p n x result }
{
    let mut y = x;
    let mut up = w[p + y] as usize;
    // A while: each turn goes to where the nodes name.
    while up < y {
        let next = w[p + up];
        w[p + y] = next;
        y = next as usize;
        up = w[p + y] as usize;
    }
    y
}

// Joins the parts of x and y.
pub fn join(w: &mut [u32], p: usize, n: usize, x: usize, y: usize)
    requires forest { Forest w.old p n }
    requires x_lt_n { (x < n) × (y < n) × (n ≤ 4294967295) }
    ensures { Joined (λ links. (x, y) ∷ links) w.old w.new p n }
{
    let a = lowest(w, p, n, x);
    let b = lowest(w, p, n, y);
    w[p + a.max(b)] = a.min(b) as u32;
}

// Joins the group and the meta-peptide of each record.
pub fn join_edges(edges: &Edges, groups: usize, metas: usize, w: &mut [u32], p: usize)
    requires n_bound { (edges.now.count ≤ 1048576) × (groups ≤ 131072) × (metas ≤ 262144) × InRange edges.now.bytes.now edges.now.count groups metas }
    requires forest { Forest w.old p (nodes groups metas) }
    ensures { Joined (edge_links groups edges.now.bytes.now edges.now.count) w.old w.new p (nodes groups metas) }
{
    let size = 1 + groups + metas;
    for i in 0..edges.count {
        let g = edges.group(i);
        let m = edges.meta(i);
        join(w, p, size, 1 + g, 1 + groups + m);
    }
}
