// Runs of bytes at the front of a stretch: every part of an entry is one.
ghost use Rattle.std.specs.Prelude.{◌≡◌, ◌≤◌, length};
ghost use Rattle.fasta_lines.specs.Lines.{line_end, blank, goes_on, run_of};

use letters::is_letter;
use records::byte_at;

// What a run consists of.
#[derive(Clone, Copy)]
pub enum Run {
    // line ends
    Ends,
    // what a line holds
    Line,
    // bytes up to the first blank or line end
    Word,
    // letters and line ends
    Letters,
}

// Whether a byte belongs to a line end, by the byte behind it.
pub(crate) fn line_end(b: u8, next: u8) -> bool
    ensures { result ≡ line_end b next }
{
    (b == 10) | ((b == 13) & (next == 10))
}

fn is_blank(b: u8) -> bool
    ensures { result ≡ blank b }
{
    (b == 32) | (b == 9)
}

// Whether a byte, with the one behind it, continues a run.
pub(crate) fn goes_on(kind: Run, b: u8, next: u8) -> bool
    ensures { result ≡ goes_on kind b next }
{
    match kind {
        Run::Ends => line_end(b, next),
        Run::Line => !line_end(b, next),
        Run::Word => !(line_end(b, next) | is_blank(b)),
        Run::Letters => line_end(b, next) | is_letter(b),
    }
}

// How many bytes at the front continue a run; behind the last byte stands 0.
pub fn run_len(kind: Run, s: &[u8]) -> usize
    ensures { (result ≡ run_of kind s.now) × (result ≤ length s.now) }
{
    for (i, b) in s.iter().enumerate() {
        if !goes_on(kind, *b, byte_at(s, i + 1)) {
            return i;
        }
    }
    s.len()
}
