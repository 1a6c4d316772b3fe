// Blocks of 64 starts, great blocks of 64 of these, and the least number in each: a block with no number below a length has no
// new range of it.
ghost use Rattle.std.specs.Prelude.{◌≡◌, ℕ, ◌+◌, ◌-◌, ◌*◌, ◌≤◌, ◌<◌, min, length, get_or};
ghost use Rattle.enzyme_blocks.specs.Blocks.{Above, Leasts, Blocked};

// Where the block of `width` starts from a on ends, of end starts.
pub fn block_end(a: usize, width: usize, end: usize) -> usize
    requires { (a ≤ 65536) × (width ≤ 4096) }
    ensures { result ≡ min (a + width) end }
{
    (a + width).min(end)
}

fn least_of(longest: &[u16], from: usize, to: usize) -> u32
    requires { to ≤ length longest.now }
    ensures { Above longest.now from to result }
{
    let mut least = u32::MAX;
    for i in from..to {
        least = least.min(u32::from(longest[i]));
    }
    least
}

// Writes the least of each block of `width` of the first n numbers, from place `at` on.
fn fill_blocks(longest: &[u16], n: usize, width: usize, at: usize, least: &mut [u32])
    requires { (n ≤ 65536) × (n ≤ length longest.now) × (0 < width) × (width ≤ 4096) × (n ≤ width * (length least.old - at)) }
    ensures { Leasts width at n longest.now least.new × ((i : ℕ) → i < at → get_or least.new i 0 ≡ get_or least.old i 0) }
{
    for b in 0..n.div_ceil(width) {
        let a = width * b;
        least[at + b] = least_of(longest, a, block_end(a, width, n));
    }
}

// The same for blocks of 64 and, behind their 1,024 places, for great blocks.
pub fn fill_least(longest: &[u16], n: usize, least: &mut [u32])
    requires { (n ≤ 65536) × (n ≤ length longest.now) × (1040 ≤ length least.old) }
    ensures { Blocked n longest.now least.new }
{
    fill_blocks(longest, n, 64, 0, least);
    fill_blocks(longest, n, 4096, 1024, least);
}
