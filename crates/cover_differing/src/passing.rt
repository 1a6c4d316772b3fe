// Passes along the records of a group, which change the counts of their meta-peptides.
ghost use Rattle.std.specs.Prelude.{◌≡◌, ℕ, ◌<◌, ◌≤◌, get_or};
ghost use Rattle.cover_differing.specs.Walking.{changed, telling, Walkable, Gone};

use crate::links::Links;
use cover_edges::Edges;
use records::wide;

// What a pass does at each record: it counts it, takes it off, or clears its count.
// An enum and no closure: `changed` and `telling` of specs/Walking.antt are of these three.
#[derive(Clone, Copy)]
pub enum Pass {
    Up,
    Off,
    Clear,
}

impl Pass {
    // The count after a record.
    fn change(self, v: u32) -> u32
        requires { v < 4294967295 }
        ensures { result ≡ changed self v }
    {
        match self {
            Pass::Up => v + 1,
            Pass::Off => v.saturating_sub(1),
            Pass::Clear => 0,
        }
    }

    // Whether the count is one to tell of: too small to take a record off, or not zero where it is cleared.
    fn tells(self, v: u32) -> bool
        ensures { result ≡ telling self v }
    {
        match self {
            Pass::Up => false,
            Pass::Off => v == 0,
            Pass::Clear => v != 0,
        }
    }
}

// Passes along the records of group g; says whether some count was one to tell of.
pub(crate) fn go_along(edges: &Edges, w: &mut [u32], links: Links, g: usize, pass: Pass) -> bool
    requires walkable { Walkable links edges.now.bytes.now w.old }
    requires g_lt_groups { (g < links.groups) × ((m : ℕ) → m < links.metas → get_or w.old m 0 ≤ 1048576) }
    ensures { Gone pass links edges.now.bytes.now g w.old w.new result }
{
    let mut told = false;
    let mut h = wide(w[links.heads + g]);
    // A while: each turn goes to the record that the last one names.
    while 0 < h {
        let i = h - 1;
        let m = edges.meta(i);
        let v = w[m];
        told |= pass.tells(v);
        w[m] = pass.change(v);
        h = wide(w[links.nexts + i]);
    }
    told
}
