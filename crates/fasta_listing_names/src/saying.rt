// What is said of a file.
use fasta_lines::{Run, run_len};
use fasta_listing_windows::sum;
use records::Refusal;
use std::io;
use text_digests::refused;
use text_lines::up_to;

pub fn say(rt: &impl Print, line: &str) -> io::Result<()> {
    println!(rt; "{line}")
}

// The run behind an entry's `>`, up to 64 bytes of it.
fn heading(rt: &impl Print, entry: &[u8], kind: Run) -> io::Result<()> {
    if entry.len() == 0 {
        return Ok(());
    }
    let behind = &entry[1..];
    let n = run_len(kind, behind);
    let most = up_to(64, behind);
    if n < most {
        rt.write_all(&behind[0..n])
    } else {
        rt.write_all(&behind[..most])
    }
}

// An entry's name, up to 64 bytes of it.
pub fn name(rt: &impl Print, entry: &[u8]) -> io::Result<()> {
    heading(rt, entry, Run::Word)
}

// That an entry is more than this program holds.
pub fn too_large(rt: &impl Print, entry: &[u8], what: &str) -> io::Result<()> {
    print!(rt; "the entry \"")?;
    name(rt, entry)?;
    println!(rt; "\" has more than the {what} that this program holds")
}

// An entry of too many letters.
pub(crate) fn refused_long(rt: &impl Print, entry: &[u8], place: usize) -> io::Result<()> {
    refused(rt, 1, place)?;
    print!(rt; ": the entry \"")?;
    name(rt, entry)?;
    say(rt, "\" has more than 65536 letters")
}

// What the library says no to in an entry. Of a bad name its line is shown.
fn fault(rt: &impl Print, entry: &[u8], why: Refusal) -> io::Result<()> {
    match why {
        Refusal::Name(_) => {
            print!(rt; ": the name \"")?;
            heading(rt, entry, Run::Line)?;
            say(rt, "\" is not 1 to 64 visible bytes")
        }
        Refusal::Letter(_) => {
            print!(rt; ": in the entry \"")?;
            name(rt, entry)?;
            say(rt, "\", a byte that is no letter")
        }
        Refusal::Stray(_) => say(rt, ": a byte before the first '>'"),
        _ => say(rt, ""),
    }
}

// What the library says to a piece that begins at a place of the file. The letters have room: it is the table of names that has none.
pub(crate) fn refused_piece(
    rt: &impl Print,
    piece: &[u8],
    place: usize,
    why: Refusal,
) -> io::Result<()> {
    match why {
        Refusal::Room => say(
            rt,
            "the file has more than the 32768 entries that this program holds",
        ),
        _ => {
            refused(rt, why.number(), sum(place, why.place()))?;
            fault(rt, piece, why)
        }
    }
}

// What the library says to a name that begins a row of names, and that stands at a place of the file.
pub(crate) fn refused_repeat(rt: &impl Print, names: &[u8], place: usize) -> io::Result<()> {
    let record = up_to(64, names);
    let n = up_to(catalogue::name_length(&names[..record]), names);
    refused(rt, 13, place)?;
    print!(rt; ": the name \"")?;
    rt.write_all(&names[..n])?;
    say(rt, "\" equals an earlier one")
}
