// What is said.
use records::Refusal;
use report_lines::Report;
use report_rows_read::{Row, column_at, find};
use std::io;
use text_lines::{column_end, narrow};

// A part of a text, where the text has it.
fn part(rt: &impl Print, s: &[u8], from: usize, to: usize) -> io::Result<()> {
    if from <= to && to <= s.len() {
        return rt.write_all(&s[from..to]);
    }
    Ok(())
}

fn peptide(rt: &impl Print, line: &[u8]) -> io::Result<()> {
    let end = column_end(line, 0);
    rt.write_all(&line[0..end])
}

pub fn too_large(rt: &impl Print, what: &str) -> io::Result<()> {
    println!(rt; "the input is larger than the {what} that this program holds")
}

fn refused(rt: &impl Print, why: u32, place: u32) -> io::Result<()> {
    print!(rt; "refused: number {why}, place {place}")
}

// A refusal of which no more is known: none of the library's answers to what it has taken is one.
pub fn refusal(rt: &impl Print, why: Refusal) -> io::Result<()> {
    refused(rt, why.number(), narrow(why.place()))?;
    println!(rt)
}

// The peptide of a row.
fn peptide_of(rt: &impl Print, s: &[u8], row: Row) -> io::Result<()> {
    if row.from <= row.to && row.to <= s.len() {
        return peptide(rt, &s[row.from..row.to]);
    }
    Ok(())
}

fn refused_row(rt: &impl Print, s: &[u8], row: Row, why: u32, what: &str) -> io::Result<()> {
    refused(rt, why, row.number)?;
    print!(rt; ": row {}, \"", row.number)?;
    peptide_of(rt, s, row)?;
    println!(rt; "\", has {what}")
}

// Says no where a row is found: whether one is.
pub fn refuses<F: Fn(&[u8], u32) -> bool>(
    rt: &impl Print,
    s: &[u8],
    is_sought: F,
    why: u32,
    what: &str,
) -> io::Result<bool>
    requires { F.IsAlwaysCallable is_sought }
{
    let found = find(s, is_sought);
    if let Some(row) = found {
        refused_row(rt, s, row, why, what)?;
    }
    Ok(found.is_some())
}

// What the library says to pairs and flags: the pairs are in order, so a field is a flag.
pub fn refused_flag(rt: &impl Print, s: &[u8], why: Refusal) -> io::Result<()> {
    match why {
        Refusal::Field(place) => match find(s, |_, number| number == narrow(place)) {
            Some(row) => refused_row(rt, s, row, 9, "a decoy flag that is not 0 or 1"),
            None => refusal(rt, why),
        },
        _ => refusal(rt, why),
    }
}

// What the library says to the tag: the names are in order, so a name is the tag.
pub(crate) fn refused_tag(rt: &impl Print, tag: &[u8], why: Refusal) -> io::Result<()> {
    match why {
        Refusal::Name(_) => {
            refused(rt, 12, 0)?;
            print!(rt; ": the decoy tag \"")?;
            rt.write_all(tag)?;
            println!(rt; "\" is not at most 16 visible bytes")
        }
        _ => refusal(rt, why),
    }
}

fn fault(rt: &impl Print, why: Refusal) -> io::Result<()> {
    match why {
        Refusal::Repeat(_) => println!(rt; ", equals an earlier one"),
        _ => println!(rt; ", is not 1 to 64 visible bytes"),
    }
}

// What the library says to the names.
pub fn refused_name(rt: &impl Print, s: &[u8], known: &[u8], why: Refusal) -> io::Result<()> {
    let place = narrow(why.place());
    let column = column_at(known, place);
    let from = column.from as usize;
    let to = from + column.length as usize;
    refused(rt, why.number(), place)?;
    print!(rt; ": the name \"")?;
    part(rt, s, from, to)?;
    print!(rt; "\", first in row {}", column.row)?;
    fault(rt, why)
}

// A report line and its end.
fn line(rt: &impl Print, report: Report, out: &[u8]) -> io::Result<()> {
    part(rt, out, 0, report.bytes as usize)?;
    println!(rt)
}

pub(crate) fn group(rt: &impl Print, group: u32, report: Report, out: &[u8]) -> io::Result<()> {
    print!(rt; "group {group}: ")?;
    line(rt, report, out)
}

pub(crate) fn row(rt: &impl Print, row: &[u8], report: Report, out: &[u8]) -> io::Result<()> {
    peptide(rt, row)?;
    print!(rt; "\t{}\t", report.groups)?;
    line(rt, report, out)
}
