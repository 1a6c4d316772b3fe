// The lists in the slice: the boundaries of each stand at a place and the next.
ghost use Rattle.std.specs.Prelude.{◌≡◌, ◌+◌, ◌-◌, ◌≤◌, ◌<◌, length, get_or};

use records::wide;

// Where a list begins and where it ends.
#[derive(Clone, Copy)]
pub struct Stretch {
    pub from: usize,
    pub till: usize,
}

// The list whose boundaries stand at a place and the next.
pub fn stretch_at(w: &[u32], at: usize) -> Stretch
    requires { at + 1 < length w.now }
    ensures { (result.from ≡ get_or w.now at 0) × (result.till ≡ get_or w.now (at + 1) 0) }
{
    let from = wide(w[at]);
    let till = wide(w[at + 1]);
    Stretch {
        from: from,
        till: till,
    }
}

// How long it is.
pub fn size_at(w: &[u32], at: usize) -> usize
    requires { (at + 1 < length w.now) × (get_or w.now at 0 ≤ get_or w.now (at + 1) 0) }
    ensures { result ≡ get_or w.now (at + 1) 0 - get_or w.now at 0 }
{
    let list = stretch_at(w, at);
    list.till - list.from
}
