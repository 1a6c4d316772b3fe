// Cuts that are passed over, since the parts they make are longer than any that is wanted.
ghost use Rattle.std.specs.Prelude.{ℕ, ◌-◌, ◌≤◌, ◌<◌};

// The first cut from c on whose part up to e is not too long.
pub fn first_cut(c: usize, e: usize, maximum: u32) -> usize
    requires { c ≤ 4294967296 }
    ensures { (c ≤ result) × ((x : ℕ) → c ≤ x → x < result → maximum < e - x) }
{
    c.max(e.saturating_sub(maximum as usize))
}

// Where the parts from a on that end before e become too long.
pub fn last_cut(a: usize, e: usize, maximum: u32) -> usize
    requires { a < 4294967296 }
    ensures { (result ≤ e) × ((x : ℕ) → result ≤ x → x < e → maximum < x - a) }
{
    e.min(a + maximum as usize + 1)
}

// The first cut of a..e from c on of which one part is not too long.
pub fn next_cut(a: usize, c: usize, e: usize, maximum: u32) -> usize
    requires { (a < 4294967296) × (c ≤ 4294967296) }
    ensures { (c ≤ result) × ((x : ℕ) → c ≤ x → x < result → (maximum < x - a) × (maximum < e - x)) }
{
    let most = maximum as usize;
    if c <= a + most {
        return c;
    }
    first_cut(c, e, maximum)
}
