// Entries of sequence files. A line is the file in hexadecimal, or `-` if it is empty, and the Rust's entries as `name=letters`, divided by
// `;`, or `-` for none: the name in hexadecimal, the letters as capitals.
ghost use Rattle.std.specs.Prelude.{◌≤◌, length};

use check::same;
use fasta::read_entry;
use text_fields::{Verdict, bytes_at, content, field, item_end};
use text_lines::{next, up_to};

// Whether a record holds the name that stands in hexadecimal, and then zeros.
fn is_name(text: &[u8], record: &[u8]) -> bool {
    let mut theirs = [0u8; 64];
    bytes_at(text, 0, &mut theirs);
    same(&theirs, record)
}

// Whether an entry is the item `name=letters`.
fn is_item(item: &[u8], name: &[u8], letters: &[u8]) -> bool {
    let end = next(item, 0, b'=');
    if item.len() <= end {
        return false;
    }
    let from = end + 1;
    is_name(&item[..end], name) & same(&item[from..], letters)
}

// Whether the item that begins at a place of a list is the entry.
fn is_at(list: &[u8], at: usize, name: &[u8], letters: &[u8]) -> bool
    requires { at ≤ length list.now }
{
    let end = item_end(list, at);
    is_item(&list[at..end], name, letters)
}

// Whether reading answers the entries of a list, one behind the other, and then that none is left. An entry has a byte at least, so
// that so many turns are enough.
fn are_entries(file: &[u8], list: &[u8]) -> bool {
    let mut name = [7u8; 64];
    let mut letters = [7u8; 4096];
    let mut at = 0;
    let mut item = 0;
    for _ in 0..file.len() + 1 {
        match read_entry(file, at, &mut name, &mut letters) {
            Ok(Some(entry)) => {
                let n = up_to(entry.letters as usize, &letters);
                if list.len() <= item {
                    return false;
                }
                if !is_at(list, item, &name, &letters[..n]) {
                    return false;
                }
                item = item_end(list, item) + 1;
                at = entry.next;
            }
            Ok(None) => return list.len() <= item,
            Err(_) => return false,
        }
    }
    false
}

pub fn replay_entries(line: &[u8]) -> Verdict {
    let mut file = [0u8; 4096];
    let n = bytes_at(line, 0, &mut file);
    if n == 4096 {
        return Verdict::TooLarge;
    }
    let from = field(line, 1);
    let list = &line[from..];
    let m = content(list);
    Verdict::of(are_entries(&file[..n], &list[..m]))
}
