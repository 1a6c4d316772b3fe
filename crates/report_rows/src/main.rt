// Shows what the library does with the rows of a search: it groups their proteins, covers the peptides by groups, and writes each
// peptide's report line. Rows that are wrong it refuses, with a number and a place.
//
// `report_rows FILE..` tells of each file, `report_rows` of standard input. The first line is the decoy tag, or `-` where decoys are not
// generated. Each other line that is not empty is a row, its columns parted by tabs (byte 9):
//     PEPTIDE FLAG NAME..
// FLAG is 1 for a decoy, else 0. A name is taken as it stands, byte for byte: with a blank at its end it is another name, and a bad
// one. Rows are counted from 0, and so are names, by first appearance.
//
// It prints `group G: NAMES` for each group of the cover, then `PEPTIDE<tab>COUNT<tab>LINE` for each row; or one line that says why
// not, with document 01's number and place. It holds 65,535 bytes a file, 4,096 rows, 4,096 names and 16,384 pairs of a row and a
// name, and says so where that is too little: the library itself works in whatever memory it is lent.
#![tactic(auto)]

mod telling;

use std::env::FillError;
use std::fs;
use std::io::Read;
use std::rt::{Env, Files};

// Tells of what can be read.
fn tell_all<F: Read>(rt: &impl Print, file: &mut F) -> std::io::Result<()> {
    let mut text = io::large_buffer();
    let n = text_lines::read_full(file, &mut text);
    if n == 65536 {
        return report_rows_print::too_large(rt, "65535 bytes");
    }
    telling::tell(rt, &text[..n])
}

fn tell_file<R: Files + Print + Eprint>(rt: &R, path: &str) -> std::io::Result<()> {
    match fs::open(rt, path) {
        Ok(mut file) => tell_all(rt, &mut file),
        Err(why) => eprintln!(rt; "{path}: {why}"),
    }
}

// Tells of the file that an argument names. A path that is no text cannot be opened.
fn tell_path<R: Files + Print + Eprint>(rt: &R, path: &[u8]) -> std::io::Result<()> {
    match std::str::from_utf8(path) {
        Ok(path) => tell_file(rt, path),
        Err(why) => eprintln!(rt; "argument: {why}"),
    }
}

// Tells of the file that an argument names: whether there is such an argument.
fn tell_argument<R: Env + Files + Print + Eprint>(rt: &R, i: usize) -> std::io::Result<bool> {
    let mut path = io::buffer();
    match rt.arg(i, &mut path) {
        Ok(n) => tell_path(rt, &path[..n])?,
        Err(FillError::TooLong) => eprintln!(rt; "argument: File name too long")?,
        Err(FillError::NotPresent) => return Ok(false),
    }
    Ok(true)
}

fn main(rt: HostRuntime) -> std::io::Result<()> {
    if !tell_argument(&rt, 1)? {
        return tell_all(&rt, &mut rt.reader());
    }
    for i in 2..usize::MAX {
        if !tell_argument(&rt, i)? {
            break;
        }
    }
    Ok(())
}
