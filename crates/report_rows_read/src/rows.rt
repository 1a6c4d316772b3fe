// The rows of a text: its lines that are not empty, counted from 0.
ghost use Rattle.std.specs.Prelude.{◌≤◌, length};

use crate::names::{column_of, put_column};
use records::{byte_at, put_byte};
use text_lines::{column_end, line_end, more};

// A row: its number, and its part of the text.
#[derive(Clone, Copy)]
pub struct Row {
    pub number: u32,
    pub from: usize,
    pub to: usize,
}

// Whether a row's peptide is no letter or not only letters.
pub fn has_bad_peptide(line: &[u8]) -> bool {
    let end = column_end(line, 0);
    end == 0 || letters::first_bad(&line[0..end]) < end
}

// Where the column of a row's flag ends.
fn flag_end(line: &[u8]) -> usize
    ensures { result ≤ length line.now }
{
    let first = column_end(line, 0);
    if first < line.len() {
        return column_end(line, first + 1);
    }
    first
}

// The flag of a row: 2 where its column is neither 0 nor 1.
pub fn flag_of(line: &[u8]) -> u8 {
    let from = column_end(line, 0) + 1;
    let b = byte_at(line, from);
    let alone = flag_end(line) == from + 1;
    if alone && b == b'0' {
        return 0;
    }
    if alone && b == b'1' {
        return 1;
    }
    2
}

// Whether a row has a name of more than 64 bytes.
pub fn has_long_name(line: &[u8]) -> bool {
    let mut at = flag_end(line) + 1;
    // A while: each turn goes behind the column's end.
    while at <= line.len() {
        let end = column_end(line, at);
        if 64 < end - at {
            return true;
        }
        at = end + 1;
    }
    false
}

// How many names a row has.
pub fn name_count(line: &[u8]) -> u32 {
    let mut n: u32 = 0;
    let mut at = flag_end(line) + 1;
    // A while: each turn goes behind the column's end.
    while at <= line.len() {
        n = more(n);
        at = column_end(line, at) + 1;
    }
    n
}

// One more behind a line that is a row.
fn counted(number: u32, is_row: bool) -> u32 {
    if is_row { more(number) } else { number }
}

// The first row whose line and number are what is sought.
pub fn find<F: Fn(&[u8], u32) -> bool>(s: &[u8], is_sought: F) -> Option<Row>
    requires { F.IsAlwaysCallable is_sought }
{
    let mut number: u32 = 0;
    let mut at = 0;
    // A while: each turn goes behind the line's end.
    while at < s.len() {
        let end = line_end(s, at);
        if at < end && is_sought(&s[at..end], number) {
            return Some(Row {
                number,
                from: at,
                to: end,
            });
        }
        number = counted(number, at < end);
        at = end + 1;
    }
    None
}

// Stores the flag of a row.
fn put_flag(flags: &mut [u8], number: u32, line: &[u8]) {
    put_byte(flags, number as usize, flag_of(line));
}

// The flags of the rows at the front of flags: how many rows there are.
pub fn read_flags(s: &[u8], flags: &mut [u8]) -> u32 {
    let mut number: u32 = 0;
    let mut at = 0;
    // A while: each turn goes behind the line's end.
    while at < s.len() {
        let end = line_end(s, at);
        put_flag(flags, number, &s[at..end]);
        number = counted(number, at < end);
        at = end + 1;
    }
    number
}

// The columns of a row's names, behind n others: how many there are then.
fn read_names(line: &[u8], from: usize, row: u32, columns: &mut [u8], n: u32) -> u32 {
    let mut count = n;
    let mut at = flag_end(line) + 1;
    // A while: each turn goes behind the column's end.
    while at <= line.len() {
        let end = column_end(line, at);
        put_column(columns, count, column_of(from, at, end - at, row));
        count = more(count);
        at = end + 1;
    }
    count
}

// The columns of all names, row by row: how many there are.
pub fn read_columns(s: &[u8], columns: &mut [u8]) -> u32 {
    let mut count: u32 = 0;
    let mut number: u32 = 0;
    let mut at = 0;
    // A while: each turn goes behind the line's end.
    while at < s.len() {
        let end = line_end(s, at);
        count = read_names(&s[at..end], at, number, columns, count);
        number = counted(number, at < end);
        at = end + 1;
    }
    count
}
