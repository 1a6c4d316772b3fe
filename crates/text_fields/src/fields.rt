// Where fields begin and end, and how much they hold.
ghost use Rattle.std.specs.Prelude.{◌≤◌, length};

use records::byte_at;
use text_lines::next;

// Where the item of a list that begins at a place ends.
pub fn item_end(list: &[u8], at: usize) -> usize
    requires { at ≤ length list.now }
    ensures { (at ≤ result) × (result ≤ length list.now) }
{
    next(list, at, b';')
}

// Where the field that begins at a place ends.
pub fn field_end(line: &[u8], at: usize) -> usize
    requires { at ≤ length line.now }
    ensures { (at ≤ result) × (result ≤ length line.now) }
{
    next(line, at, b' ')
}

// One less behind a blank.
fn passed(left: usize, b: u8) -> usize {
    if b == b' ' {
        left.saturating_sub(1)
    } else {
        left
    }
}

// Where field k of a line begins: behind k blanks.
pub fn field(line: &[u8], k: usize) -> usize
    ensures { result ≤ length line.now }
{
    let mut left = k;
    for (i, b) in line.iter().enumerate() {
        if left == 0 {
            return i;
        }
        left = passed(left, *b);
    }
    line.len()
}

// How many letters field 0 has: `-` stands for none.
pub fn letter_count(line: &[u8]) -> usize
    ensures { result ≤ length line.now }
{
    let end = field_end(line, 0);
    content(&line[0..end])
}

// How many bytes a field holds: `-` stands for none.
pub fn content(s: &[u8]) -> usize
    ensures { result ≤ length s.now }
{
    if byte_at(s, 0) == b'-' { 0 } else { s.len() }
}
