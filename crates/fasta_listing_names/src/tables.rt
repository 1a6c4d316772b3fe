// The names of a file in a row, each at the front of its 64 bytes, and their places in the file.
ghost use Rattle.std.specs.Prelude.{◌≡◌, length};

use text_lines::up_to;

// 32,768 names.
pub fn name_table() -> [u8; 2097152]
    ensures { 2097152 ≡ length result }
{
    [0; 2097152]
}

// 32,768 places.
pub(crate) fn place_table() -> [u64; 32768]
    ensures { 32768 ≡ length result }
{
    [0; 32768]
}

pub(crate) fn put_place(places: &mut [u64], number: u32, place: usize) {
    let i = number as usize;
    if i < places.len() {
        places[i] = place as u64;
    }
}

pub(crate) fn place_at(places: &[u64], i: usize) -> usize {
    if i < places.len() {
        places[i] as usize
    } else {
        0
    }
}

// Whether the name of a number is that of a record.
pub fn is_named(names: &[u8], number: u32, record: &[u8]) -> bool {
    let from = up_to(64 * number as usize, names);
    let rest = &names[from..];
    let n = up_to(64, rest);
    check::same(&rest[..n], record)
}
