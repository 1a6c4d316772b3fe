// The names of a line.
ghost use Rattle.io.specs.Counts.{IsPrefixLen};

use crate::fields::{item_end, letter_count};
use crate::hexadecimals::unhex;

// The names of a list in hexadecimal, each at the front of its 64 bytes: how many bytes they take. The other bytes stay.
fn names_of(list: &[u8], names: &mut [u8]) -> usize
    ensures { IsPrefixLen result names.new }
{
    let mut at = 0;
    let room = names.len() / 64;
    for k in 0..room {
        let n = 64 * k;
        if list.len() <= at {
            return n;
        }
        let end = item_end(list, at);
        unhex(&list[at..end], &mut names[n..n + 64]);
        at = end + 1;
    }
    64 * room
}

// The names of field 0.
pub fn names_at(line: &[u8], names: &mut [u8]) -> usize
    ensures { IsPrefixLen result names.new }
{
    let n = letter_count(line);
    names_of(&line[0..n], names)
}
