// The report lines of the groups and of the rows.
ghost use Rattle.std.specs.Prelude.{◌≡◌, ◌≤◌, length};

use crate::saying;
use records::{Refusal, byte_at, u32_at};
use report_lines::{Report, report_line};
use report_rows_read::{flag_of, list_of, name_count};
use std::io;
use text_lines::{line_end, narrow, table};

// What report lines are made from.
#[derive(Clone, Copy)]
pub struct Groups<'a> {
    pub tag: &'a [u8],
    pub names: &'a [u8],
    pub members: &'a [u8],
    pub marks: &'a [u8],
}

impl<'a> Groups<'a> {
    // The line of the proteins in a list: the tag `-` says that decoys are not generated.
    fn line(&self, list: &[u32], decoy: bool, out: &mut [u8]) -> Result<Report, Refusal> {
        let generated = self.tag.len() != 1 || byte_at(self.tag, 0) != b'-';
        report_line(
            self.names,
            self.members,
            self.marks,
            list,
            decoy,
            self.tag,
            generated,
            out,
        )
    }
}

// The group of member i.
fn group_of(members: &[u8], i: u32) -> u32 {
    u32_at(members, 12 * i as usize)
}

// Whether member i is the first of its group.
fn is_first(members: &[u8], i: u32) -> bool {
    i == 0 || group_of(members, i - 1) != group_of(members, i)
}

// Prints the group of member i.
fn print_group(rt: &impl Print, groups: &Groups, i: u32, out: &mut [u8]) -> io::Result<()> {
    let at = 12 * i as usize;
    let list = [u32_at(groups.members, at + 4)];
    let decoy = byte_at(groups.members, at + 8) == 1;
    match groups.line(&list, decoy, out) {
        Err(why) => saying::refusal(rt, why),
        Ok(report) => saying::group(rt, group_of(groups.members, i), report, out),
    }
}

// Prints the marked group that begins with member i.
fn print_first(rt: &impl Print, groups: &Groups, i: u32, out: &mut [u8]) -> io::Result<()> {
    let mark = byte_at(groups.marks, group_of(groups.members, i) as usize);
    if is_first(groups.members, i) && mark == 1 {
        return print_group(rt, groups, i, out);
    }
    Ok(())
}

fn print_groups(rt: &impl Print, groups: &Groups, out: &mut [u8]) -> io::Result<()> {
    for i in 0..narrow(groups.members.len() / 12) {
        print_first(rt, groups, i, out)?;
    }
    Ok(())
}

fn print_row(
    rt: &impl Print,
    line: &[u8],
    list: &[u32],
    groups: &Groups,
    out: &mut [u8],
) -> io::Result<()> {
    if line.is_empty() {
        return Ok(());
    }
    match groups.line(list, flag_of(line) == 1, out) {
        Err(why) => saying::refusal(rt, why),
        Ok(report) => saying::row(rt, line, report, out),
    }
}

// Where a row's names end in the list, which holds those of all rows.
fn names_end(list: &[u32], first: usize, count: u32) -> usize
    requires { first ≤ length list.now }
    ensures { (first ≤ result) × (result ≤ length list.now) }
{
    list.len().min(first + count as usize)
}

fn print_rows(
    rt: &impl Print,
    s: &[u8],
    list: &[u32],
    groups: &Groups,
    out: &mut [u8],
) -> io::Result<()> {
    let mut first = 0;
    let mut at = 0;
    // A while: each turn goes behind the line's end.
    while at < s.len() {
        let end = line_end(s, at);
        let next = names_end(list, first, name_count(&s[at..end]));
        print_row(rt, &s[at..end], &list[first..next], groups, out)?;
        first = next;
        at = end + 1;
    }
    Ok(())
}

// Prints all lines.
fn print_all(
    rt: &impl Print,
    s: &[u8],
    pairs: &[u8],
    groups: &Groups,
    out: &mut [u8],
) -> io::Result<()> {
    // 16,384 names of rows
    let mut list: [u32; 16384] = table(0);
    let n = list_of(pairs, &mut list);
    print_groups(rt, groups, out)?;
    print_rows(rt, s, &list[..n], groups, out)
}

// The line of no protein tells whether the library takes the tag, before anything is printed.
pub fn report(rt: &impl Print, s: &[u8], pairs: &[u8], groups: &Groups) -> io::Result<()> {
    // any line: names of 65,535 bytes from targets and from decoys, 4,096 tags, and what stands between 8,192 names
    let mut out: [u8; 262144] = table(0);
    match groups.line(&[], false, &mut out) {
        Err(why) => saying::refused_tag(rt, groups.tag, why),
        Ok(_) => print_all(rt, s, pairs, groups, &mut out),
    }
}
