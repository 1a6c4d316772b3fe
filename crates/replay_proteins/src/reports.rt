// Report lines. A line is the names in hexadecimal, divided by `;`, the members as `group.protein.decoy`, divided by `;`, the marks as
// digits, the peptide's proteins, divided by `.`, its flag, the tag in hexadecimal, whether decoys are generated, the number of groups,
// which is the `;` of the Rust's text plus one, without those in names, and that text in hexadecimal; `-` stands for none.
use text_fields::{
    Verdict, bytes_at, decimal_at, field, is_set, is_text, marks_at, names_at, numbers_at,
    records_at,
};

// Whether the text and its groups are those of a line.
fn is_line(line: &[u8], out: &[u8], bytes: u32, groups: u32) -> bool {
    let from = field(line, 8);
    decimal_at(line, 7) == groups && is_text(&line[from..], out, bytes)
}

// Whether the library writes the text as the Rust did.
fn is_written(line: &[u8], names: &[u8], members: &[u8], marks: &[u8], list: &[u32]) -> bool {
    let mut tag = [0u8; 17];
    let mut out = [7u8; 256];
    let t = bytes_at(line, 5, &mut tag);
    let decoy = is_set(line, 4);
    let generated = is_set(line, 6);
    let answer = report_lines::report_line(
        names,
        members,
        marks,
        list,
        decoy,
        &tag[..t],
        generated,
        &mut out,
    );
    match answer {
        Ok(report) => is_line(line, &out, report.bytes, report.groups),
        Err(_) => false,
    }
}

// The same, for the marks and the proteins of a line.
fn replay_with(line: &[u8], names: &[u8], members: &[u8]) -> Verdict {
    let mut marks = [2u8; 33];
    let mut list = [0u32; 17];
    let m = marks_at(line, 2, &mut marks);
    let n = numbers_at(line, 3, &mut list);
    if m < 33 && n < 17 {
        return Verdict::of(is_written(line, names, members, &marks[..m], &list[..n]));
    }
    Verdict::TooLarge
}

pub fn replay_line(line: &[u8]) -> Verdict {
    let mut names = [0u8; 896];
    let mut members = [0u8; 396];
    let n = names_at(line, &mut names);
    let m = records_at(line, 1, &mut members);
    if n < 896 && m < 396 {
        return replay_with(line, &names[..n], &members[..m]);
    }
    Verdict::TooLarge
}
