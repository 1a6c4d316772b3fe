// The letters of a text.
ghost use Rattle.std.specs.Prelude.{◌≤◌, length};

// Puts a byte behind n others, where there is room: how many there are then.
fn push(out: &mut [u8], n: usize, b: u8) -> usize
    requires { n ≤ length out.old }
    ensures { result ≤ length out.new }
{
    if n < out.len() {
        out[n] = b;
        return n + 1;
    }
    n
}

// Copies what is no blank and no line's end, as far as it fits: how many bytes.
pub(crate) fn squeeze(text: &[u8], out: &mut [u8]) -> usize
    ensures { result ≤ length out.new }
{
    let mut n = 0;
    for b in text {
        if 32 < *b {
            n = push(out, n, *b);
        }
    }
    n
}
