// The second reading of a file, which lists its digests.
ghost use Rattle.std.specs.Prelude.{◌≡◌, ◌≤◌, length};

use fasta::read_entry;
use fasta_listing_names::{
    Step, Stop, is_named, name, name_table, of_file, read_names, say, too_large,
};
use fasta_listing_windows::{Found, Window, buffer, next_piece};
use letters::LetterSet;
use records::Refusal;
use std::fs;
use std::io::Read as ReadBytes;
use std::rt::Files;
use text_digests::Request;
use text_lines::{more, up_to};

// 65,536 digests.
fn digest_table() -> [u8; 1310720]
    ensures { 1310720 ≡ length result }
{
    [0; 1310720]
}

// The first reading took the file, so what is wrong now was not there.
fn changed(rt: &impl Print) -> Stop {
    match say(rt, "the file has changed since its names were tested") {
        Ok(()) => Stop::Said,
        Err(why) => Stop::Print(why),
    }
}

fn refuse(rt: &impl Print, entry: &[u8], why: Refusal) -> std::io::Result<()> {
    match why {
        Refusal::Room => too_large(rt, entry, "65536 digests"),
        _ => text_digests::refusal(rt, why),
    }
}

// Lists the digests of an entry: its number is the protein.
fn list_entry(
    rt: &impl Print,
    entry: &[u8],
    letters: &[u8],
    request: Request,
    number: u32,
    out: &mut [u8],
) -> Result<(), Stop> {
    let enzyme = request.enzyme;
    let settings = request.settings;
    match enzyme::digest(letters, LetterSet::ALL, enzyme, settings, number, out) {
        Err(why) => {
            refuse(rt, entry, why)?;
            Err(Stop::Said)
        }
        Ok(count) => {
            print!(rt; ">")?;
            name(rt, entry)?;
            println!(rt)?;
            text_digests::print_all(rt, out, count)?;
            Ok(())
        }
    }
}

// Reads a piece again.
fn list_piece(
    rt: &impl Print,
    piece: &[u8],
    names: &[u8],
    request: Request,
    number: u32,
    letters: &mut [u8],
    out: &mut [u8],
) -> Result<Step, Stop> {
    let mut record = [0u8; 64];
    match read_entry(piece, 0, &mut record, letters) {
        Ok(Some(entry)) => {
            if !is_named(names, number, &record) {
                return Err(changed(rt));
            }
            let n = up_to(entry.letters as usize, letters);
            list_entry(rt, piece, &letters[..n], request, number, out)?;
            Ok(Step::Entry)
        }
        Ok(None) => Ok(Step::Nothing),
        Err(_) => Err(changed(rt)),
    }
}

// The end of a file, if all its names were there.
fn end(rt: &impl Print, names: &[u8], number: u32) -> Result<Step, Stop> {
    if names.len() == 64 * number as usize {
        Ok(Step::End)
    } else {
        Err(changed(rt))
    }
}

// Takes what was found.
fn take(
    rt: &impl Print,
    bytes: &[u8],
    window: Window,
    names: &[u8],
    request: Request,
    number: u32,
    letters: &mut [u8],
    out: &mut [u8],
) -> Result<Step, Stop>
    requires { (window.from ≤ window.to) × (window.to ≤ length bytes.now) }
{
    let piece = &bytes[window.from..window.to];
    match window.found {
        Found::Piece => list_piece(rt, piece, names, request, number, letters, out),
        Found::End => end(rt, names, number),
        Found::Front => Err(changed(rt)),
    }
}

// Lists all entries of a file. Turns are counted as where the names are read.
fn list_all<F: ReadBytes>(
    rt: &impl Print,
    file: &mut F,
    names: &[u8],
    request: Request,
    bytes: &mut [u8],
    letters: &mut [u8],
    out: &mut [u8],
) -> Result<(), Stop> {
    let mut window = Window::start();
    let mut number: u32 = 0;
    for _ in 0..u64::MAX {
        window = next_piece(file, bytes, window).map_err(of_file)?;
        match take(rt, bytes, window, names, request, number, letters, out)? {
            Step::Entry => number = more(number),
            Step::Nothing => {}
            Step::End => return Ok(()),
        }
    }
    Err(changed(rt))
}

// Lists the entries of a file whose names are known.
fn list_entries<R: Files + Print>(
    rt: &R,
    path: &str,
    names: &[u8],
    request: Request,
    bytes: &mut [u8],
    letters: &mut [u8],
) -> Result<(), Stop> {
    let mut file = fs::open(rt, path).map_err(of_file)?;
    let mut out = digest_table();
    list_all(rt, &mut file, names, request, bytes, letters, &mut out)
}

// Reads the names of a file, then lists its entries.
fn list_read<R: Files + Print>(rt: &R, path: &str, request: Request) -> Result<(), Stop> {
    let mut bytes = buffer();
    let mut letters = io::large_buffer();
    let mut names = name_table();
    let count = read_names(rt, path, &mut bytes, &mut names, &mut letters)?;
    let n = up_to(64 * count as usize, &names);
    list_entries(rt, path, &names[..n], request, &mut bytes, &mut letters)
}

// The same, and says why a call on the file failed.
pub(crate) fn list_file<R: Files + Print + Eprint>(
    rt: &R,
    path: &str,
    request: Request,
) -> std::io::Result<()> {
    match list_read(rt, path, request) {
        Ok(()) | Err(Stop::Said) => Ok(()),
        Err(Stop::File(why)) => eprintln!(rt; "{path}: {why}"),
        Err(Stop::Print(why)) => Err(why),
    }
}
