// The catalogue of names. Each is known by the column in which it first stands.
ghost use Rattle.io.specs.Counts.{IsPrefixLen};

use records::{byte_at, put_byte, put_u32, u32_at};
use text_lines::{more, narrow};

// A name as it stands in a row: where it begins in the text, how many bytes it has, and the row.
#[derive(Clone, Copy)]
pub struct Column {
    pub from: u32,
    pub length: u32,
    pub row: u32,
}

// The column that begins at a place of a line, which begins at a place of the text.
pub(crate) fn column_of(line: usize, at: usize, length: usize, row: u32) -> Column {
    let from = narrow(line).saturating_add(narrow(at));
    let length = narrow(length);
    Column { from, length, row }
}

// Column k of a table.
pub fn column_at(columns: &[u8], k: u32) -> Column {
    let at = 12 * k as usize;
    let from = u32_at(columns, at);
    let length = u32_at(columns, at + 4);
    let row = u32_at(columns, at + 8);
    Column { from, length, row }
}

// Stores column k, where the table has it.
pub(crate) fn put_column(columns: &mut [u8], k: u32, column: Column) {
    let at = 12 * k as usize;
    put_u32(columns, at, column.from);
    put_u32(columns, at + 4, column.length);
    put_u32(columns, at + 8, column.row);
}

// Byte i of a column.
fn letter(s: &[u8], column: Column, i: u32) -> u8 {
    byte_at(s, column.from as usize + i as usize)
}

// Whether two columns have the same bytes.
fn is_same(s: &[u8], a: Column, b: Column) -> bool {
    a.length == b.length && (0..a.length).all(|i| letter(s, a, i) == letter(s, b, i))
}

// The number of a name among k known ones.
fn number_of(s: &[u8], known: &[u8], k: u32, name: Column) -> Option<u32> {
    (0..k).find(|j| is_same(s, column_at(known, *j), name))
}

// Stores pair i.
fn put_pair(pairs: &mut [u8], i: u32, peptide: u32, protein: u32) {
    let at = 8 * i as usize;
    put_u32(pairs, at, peptide);
    put_u32(pairs, at + 4, protein);
}

// The pairs of rows and names, names numbered by first appearance: how many names there are.
pub fn number_names(
    s: &[u8],
    columns: &[u8],
    count: u32,
    known: &mut [u8],
    pairs: &mut [u8],
) -> u32 {
    let mut k: u32 = 0;
    for i in 0..count {
        let name = column_at(columns, i);
        let number = number_of(s, known, k, name);
        put_pair(pairs, i, name.row, number.unwrap_or(k));
        if number.is_none() {
            put_column(known, k, name);
            k = more(k);
        }
    }
    k
}

// Stores a name at the front of its 64 bytes.
fn put_name(s: &[u8], name: Column, j: u32, names: &mut [u8]) {
    let at = 64 * j as usize;
    for i in 0..name.length {
        put_byte(names, at + i as usize, letter(s, name, i));
    }
}

// The records of k names, none longer than 64 bytes, over zeros.
pub fn put_names(s: &[u8], known: &[u8], k: u32, names: &mut [u8]) {
    for j in 0..k {
        put_name(s, column_at(known, j), j, names);
    }
}

// The names of the pairs at the front of list: how many there are.
pub fn list_of(pairs: &[u8], list: &mut [u32]) -> usize
    ensures { IsPrefixLen result list.new }
{
    let n = list.len().min(pairs.len() / 8);
    for i in 0..n {
        list[i] = u32_at(pairs, 8 * i + 4);
    }
    n
}
