// The places of an array within a length, and past it.
ghost use Rattle.std.specs.Prelude.{◌≡◌, ◌≤◌, drop};
ghost use Rattle.peptide_slots.specs.Mirror.{mirror, all_zero};

// The places between the first and the last of the first n, reversed.
pub fn mirrored(xs: [u8; 64], n: usize) -> [u8; 64]
    requires { n ≤ 64 }
    ensures { result ≡ mirror n xs }
{
    let mut out = xs;
    if 2 < n {
        out[1..n - 1].reverse();
    }
    out
}

// Whether the places from n on are 0.
pub fn zero_from(xs: [u8; 64], n: usize) -> bool
    requires { n ≤ 64 }
    ensures { result ≡ all_zero (drop n xs) }
{
    // No early end: all places are looked at side by side.
    let mut all = true;
    for x in &xs[n..64] {
        all &= *x == 0;
    }
    all
}
