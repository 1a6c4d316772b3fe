// Where lines and columns end.
ghost use Rattle.std.specs.Prelude.{◌≤◌, length};

// Where a byte stands next, or the end.
pub fn next(s: &[u8], at: usize, b: u8) -> usize
    requires { at ≤ length s.now }
    ensures { (at ≤ result) × (result ≤ length s.now) }
{
    for i in at..s.len() {
        if s[i] == b {
            return i;
        }
    }
    s.len()
}

// Where the line that begins at a place ends.
pub fn line_end(s: &[u8], at: usize) -> usize
    requires { at ≤ length s.now }
    ensures { (at ≤ result) × (result ≤ length s.now) }
{
    next(s, at, b'\n')
}

// Where the column that begins at a place ends: columns are parted by tabs.
// Both are `next`, named for what they answer.
pub fn column_end(line: &[u8], at: usize) -> usize
    requires { at ≤ length line.now }
    ensures { (at ≤ result) × (result ≤ length line.now) }
{
    next(line, at, b'\t')
}
