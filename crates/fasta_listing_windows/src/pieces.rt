// The pieces of a file: an entry, from its `>` up to the next line that starts with one. Before the first entry there may be a piece of
// line ends, or of what has no place there. No piece ends inside an entry: a CR at its end would read as a bad byte.
ghost use Rattle.std.specs.Prelude.{◌≡◌, ◌≤◌, length, IfOk};

use crate::filling::fill;
use fasta_lines::{Run, entry_len, run_len};
use records::byte_at;
use std::io;
use std::io::Read;

// What is found in a file.
#[derive(Clone, Copy)]
pub enum Found {
    Piece,
    // The file has no more.
    End,
    // The front of an entry that is larger than the buffer.
    Front,
}

// What stands in the buffer.
#[derive(Clone, Copy)]
pub struct Window {
    pub found: Found,
    // where the piece begins
    pub from: usize,
    // where it ends, and the next begins
    pub to: usize,
    // where that ends which was read
    pub filled: usize,
    // how many bytes of the file came before the buffer's first
    pub before: usize,
}

impl Window {
    // Nothing is read yet.
    pub fn start() -> Window
        ensures { (result.to ≡ 0) × (result.filled ≡ 0) }
    {
        Window {
            found: Found::Piece,
            from: 0,
            to: 0,
            filled: 0,
            before: 0,
        }
    }

    // The piece's place in the file.
    pub fn place(self) -> usize {
        sum(self.before, self.from)
    }
}

// An entry of 262,144 bytes, and the byte behind it that shows its end.
pub fn buffer() -> [u8; 262145]
    ensures { 262145 ≡ length result }
{
    [0; 262145]
}

// A sum, or the greatest number.
pub fn sum(a: usize, b: usize) -> usize {
    a.saturating_add(b)
}

// What it is whose end is not in a full buffer.
fn endless(bytes: &[u8]) -> Found {
    if byte_at(bytes, 0) == b'>' {
        Found::Front
    } else {
        Found::Piece
    }
}

// What a full buffer holds in which no next entry begins. Line ends are a piece, so that there may be any number of them; a CR at the
// buffer's end is none of them yet.
fn of_full(bytes: &[u8], before: usize) -> Window
    ensures { (result.from ≤ result.to) × (result.to ≤ result.filled) × (result.filled ≤ length bytes.now) }
{
    let filled = bytes.len();
    let ends = run_len(Run::Ends, bytes);
    if 0 < ends {
        return Window {
            found: Found::Piece,
            from: 0,
            to: ends,
            filled,
            before,
        };
    }
    let found = endless(bytes);
    Window {
        found,
        from: 0,
        to: filled,
        filled,
        before,
    }
}

// What a buffer holds to which the file's last byte was read, and in which no next entry begins.
fn of_last(filled: usize, before: usize) -> Window
    ensures { (result.from ≤ result.to) × (result.to ≡ filled) × (result.filled ≡ filled) }
{
    let found = if filled == 0 {
        Found::End
    } else {
        Found::Piece
    };
    Window {
        found,
        from: 0,
        to: filled,
        filled,
        before,
    }
}

// The piece that begins at the buffer's front, of which the first bytes are there.
fn first_piece<F: Read>(
    file: &mut F,
    bytes: &mut [u8],
    first: usize,
    before: usize,
) -> io::Result<Window>
    requires { first ≤ length bytes.old }
    ensures { IfOk result (λ w. (w.from ≤ w.to) × (w.to ≤ w.filled) × (w.filled ≤ length bytes.new)) }
{
    let filled = fill(file, bytes, first)?;
    let end = entry_len(&bytes[0..filled]);
    if end < filled {
        return Ok(Window {
            found: Found::Piece,
            from: 0,
            to: end,
            filled,
            before,
        });
    }
    if filled < bytes.len() {
        return Ok(of_last(filled, before));
    }
    Ok(of_full(bytes, before))
}

// The piece behind the last one.
pub fn next_piece<F: Read>(file: &mut F, bytes: &mut [u8], last: Window) -> io::Result<Window>
    requires { (last.to ≤ last.filled) × (last.filled ≤ length bytes.old) }
    ensures { IfOk result (λ w. (w.from ≤ w.to) × (w.to ≤ w.filled) × (w.filled ≤ length bytes.new)) }
{
    let from = last.to;
    let filled = last.filled;
    let end = from + entry_len(&bytes[from..filled]);
    if end < filled {
        return Ok(Window {
            found: Found::Piece,
            from,
            to: end,
            filled,
            before: last.before,
        });
    }
    bytes.copy_within(from..filled, 0);
    first_piece(file, bytes, filled - from, sum(last.before, from))
}
