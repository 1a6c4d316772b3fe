// Reads the names of a file, and tests them.
ghost use Rattle.std.specs.Prelude.{◌≤◌, length};

use crate::saying;
use crate::steps::{Step, Stop, of_file};
use crate::tables::{place_at, place_table, put_place};
use fasta::{Fault, read_entry};
use fasta_listing_windows::{Found, Window, next_piece, sum};
use records::Refusal;
use std::io::Read as ReadBytes;
use std::rt::Files;
use std::{fs, io};
use text_lines::{more, up_to};

// Reads a piece that begins at a place of the file. Its name goes behind so many others.
fn read_piece(
    rt: &impl Print,
    piece: &[u8],
    place: usize,
    names: &mut [u8],
    count: u32,
    letters: &mut [u8],
) -> Result<Step, Stop> {
    let at = up_to(64 * count as usize, names);
    match read_entry(piece, 0, &mut names[at..], letters) {
        Ok(Some(_)) => Ok(Step::Entry),
        Ok(None) => Ok(Step::Nothing),
        Err(Fault::Long(at)) => {
            saying::refused_long(rt, piece, sum(place, at))?;
            Err(Stop::Said)
        }
        Err(Fault::Refused(why)) => {
            saying::refused_piece(rt, piece, place, why)?;
            Err(Stop::Said)
        }
    }
}

// Takes what was found.
fn take(
    rt: &impl Print,
    bytes: &[u8],
    window: Window,
    names: &mut [u8],
    count: u32,
    letters: &mut [u8],
) -> Result<Step, Stop>
    requires { (window.from ≤ window.to) × (window.to ≤ length bytes.now) }
{
    let piece = &bytes[window.from..window.to];
    match window.found {
        Found::Piece => read_piece(rt, piece, window.place(), names, count, letters),
        Found::End => Ok(Step::End),
        Found::Front => {
            saying::too_large(rt, piece, "262144 bytes")?;
            Err(Stop::Said)
        }
    }
}

// Reads all names, and keeps the place of each: the byte behind its `>`. A loop has to end, and nothing says that a file does: turns
// are counted, up to a number that no file uses up.
fn read_all<F: ReadBytes>(
    rt: &impl Print,
    file: &mut F,
    bytes: &mut [u8],
    names: &mut [u8],
    places: &mut [u64],
    letters: &mut [u8],
) -> Result<u32, Stop> {
    let mut window = Window::start();
    let mut count: u32 = 0;
    for _ in 0..u64::MAX {
        window = next_piece(file, bytes, window).map_err(of_file)?;
        put_place(places, count, sum(window.place(), 1));
        match take(rt, bytes, window, names, count, letters)? {
            Step::Entry => count = more(count),
            Step::Nothing => {}
            Step::End => return Ok(count),
        }
    }
    saying::say(rt, "the file does not end")?;
    Err(Stop::Said)
}

// Says why a table of names is refused.
fn refuse(rt: &impl Print, names: &[u8], places: &[u64], why: Refusal) -> io::Result<()> {
    match why {
        Refusal::Repeat(i) => {
            let at = up_to(64 * text_lines::narrow(i) as usize, names);
            saying::refused_repeat(rt, &names[at..], place_at(places, i))
        }
        _ => text_digests::refusal(rt, why),
    }
}

// Reads and tests the names of an open file.
fn read_tested<F: ReadBytes>(
    rt: &impl Print,
    file: &mut F,
    bytes: &mut [u8],
    names: &mut [u8],
    letters: &mut [u8],
) -> Result<u32, Stop> {
    let mut places = place_table();
    let count = read_all(rt, file, bytes, names, &mut places, letters)?;
    let n = up_to(64 * count as usize, names);
    if let Err(why) = catalogue::names_tested(&names[..n]) {
        refuse(rt, names, &places, why)?;
        return Err(Stop::Said);
    }
    Ok(count)
}

// Reads and tests the names of a file: how many there are. Lent are the buffer of a window, a table of names, and room for 65,536
// letters.
pub fn read_names<R: Files + Print>(
    rt: &R,
    path: &str,
    bytes: &mut [u8],
    names: &mut [u8],
    letters: &mut [u8],
) -> Result<u32, Stop> {
    let mut file = fs::open(rt, path).map_err(of_file)?;
    read_tested(rt, &mut file, bytes, names, letters)
}
