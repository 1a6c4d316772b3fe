// Lists the digests of the proteins of sequence files. Files that are wrong it refuses, with a number and a place.
//
// `fasta_listing FILE..` tells of each file, one after the other. Standard input has on its first line, parted by single blanks,
//     CLEAVE SKIP SIDE SEMI MISSED MINIMUM MAXIMUM
// as `list_digests` has them. For each entry of a file it prints `>NAME`, then its digests, one to a line, as eight numbers: start end
// missed semi position decoy protein, and how often its letters occur. A protein is the entry's number, from 0.
//
// A file is read twice, so that a pipe is none: nothing is printed of it before all its entries and names are known to be good. Else
// one line says why not, with the number and the place in the file that documents 01 and 02 give. It may be of any size, as it is read
// in windows. The program holds 32,768 entries, 262,144 bytes of each and 65,536 digests of each, and says so where that is too
// little: the library itself works in whatever memory it is lent.
#![tactic(auto)]

mod listing;

use fasta_listing_names::say;
use letters::LetterSet;
use std::env::FillError;
use std::rt::{Env, Files};
use text_digests::Request;

// Lists the file that an argument names. A path that is no text cannot be opened.
fn list_path<R: Files + Print + Eprint>(
    rt: &R,
    path: &[u8],
    request: Request,
) -> std::io::Result<()> {
    match std::str::from_utf8(path) {
        Ok(path) => listing::list_file(rt, path, request),
        Err(why) => eprintln!(rt; "argument: {why}"),
    }
}

// Lists the file that an argument names: whether there is such an argument.
fn list_argument<R: Env + Files + Print + Eprint>(
    rt: &R,
    i: usize,
    request: Request,
) -> std::io::Result<bool> {
    let mut path = io::buffer();
    match rt.arg(i, &mut path) {
        Ok(n) => list_path(rt, &path[..n], request)?,
        Err(FillError::TooLong) => eprintln!(rt; "argument: File name too long")?,
        Err(FillError::NotPresent) => return Ok(false),
    }
    Ok(true)
}

fn list_arguments<R: Env + Files + Print + Eprint>(
    rt: &R,
    request: Request,
) -> std::io::Result<()> {
    if !list_argument(rt, 1, request)? {
        return say(rt, "the arguments are: FILE..");
    }
    for i in 2..usize::MAX {
        if !list_argument(rt, i, request)? {
            break;
        }
    }
    Ok(())
}

// Tests the settings before a file is read.
fn run<R: Env + Files + Print + Eprint>(rt: &R, line: &[u8]) -> std::io::Result<()> {
    if text_fields::field(line, 6) == line.len() {
        return say(
            rt,
            "the first line is: CLEAVE SKIP SIDE SEMI MISSED MINIMUM MAXIMUM",
        );
    }
    let request = text_digests::read_request(line);
    let none = [0u8; 0];
    match enzyme::tested(&none, LetterSet::ALL, request.enzyme, request.settings) {
        Ok(()) => list_arguments(rt, request),
        Err(why) => text_digests::refusal(rt, why),
    }
}

fn main(rt: HostRuntime) -> std::io::Result<()> {
    let mut input = io::buffer();
    let n = text_lines::read_full(&mut rt.reader(), &mut input);
    let end = text_lines::up_to(text_lines::line_end(&input[..n], 0), &input);
    if end == 4096 {
        return say(
            &rt,
            "the first line is larger than the 4095 bytes that this program holds",
        );
    }
    run(&rt, &input[..end])
}
