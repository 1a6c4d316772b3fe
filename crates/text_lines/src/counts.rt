// Tables of one value, and counts up to the greatest that there is.
ghost use Rattle.std.specs.Prelude.{◌≡◌, length};
ghost use Rattle.io.specs.Counts.{IsPrefixLen};

// A table of one value.
pub fn table<T: Copy, const N: usize>(x: T) -> [T; N]
    ensures { N ≡ length result }
{
    [x; N]
}

// One more, up to the greatest number.
pub fn more(n: u32) -> u32 {
    n.saturating_add(1)
}

// A number that fits, or the greatest that does.
pub fn narrow(n: usize) -> u32 {
    u32::try_from(n).unwrap_or(u32::MAX)
}

// So many bytes, as far as there are so many.
pub fn up_to(n: usize, s: &[u8]) -> usize
    ensures { IsPrefixLen result s.now }
{
    n.min(s.len())
}
