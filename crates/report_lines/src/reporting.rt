// The report line of a peptide, in lent bytes.
ghost use Rattle.std.specs.Prelude.{◌≡◌, ◌&&◌, [], ◌∷◌, ◌+◌, ◌*◌, ◌/◌, ◌≤◌, leb, length};
ghost use Rattle.report_lines_tests.specs.Testing.{tested};
ghost use Rattle.report_lines_tests.specs.TestingLaws.{Fair};
ghost use Rattle.records.specs.Outcome.{outcome};
ghost use Rattle.report_lines_select.specs.Laying.{Given};
ghost use Rattle.report_lines_write.specs.LineLaws.{Tag};
ghost use Rattle.report_lines.specs.Reporting.{reported_of, line_lined, line_outcome};
ghost use Rattle.report_lines.specs.ReportingLaws.{line_told, LineTable, Fitting, tests_of};

use records::Refusal;
use report_lines_select::Asked;
use report_lines_tests::{is_uneven, lists_tested, too_large};
use report_lines_texts::Line;

// How many bytes the line has, and how many groups it names.
#[derive(Clone, Copy)]
pub struct Report {
    pub bytes: u32,
    pub groups: u32,
}

// The line's answer, or 11 where it is longer than its room.
fn answer(bytes: u32, groups: u32, room: usize) -> Result<Report, Refusal>
    ensures { result ≡ reported_of bytes groups room }
{
    let length = bytes as usize;
    if length <= room {
        Ok(Report { bytes, groups })
    } else {
        Err(Refusal::Room)
    }
}

// The line of lists that passed the tests, by a table that is lent, all zeros, with areas of c numbers.
fn line_laid(asked: &Asked, w: &mut [u32], c: usize, out: &mut [u8]) -> Result<Report, Refusal>
    requires { Given asked.now.members.now asked.now.marks.now asked.now.list.now asked.now.tag.now w.old c × Tag asked.now.tag.now }
    ensures { outcome result (out.new ∷ []) ≡ line_lined asked.now.names.now asked.now.members.now asked.now.marks.now asked.now.list.now asked.now.decoy asked.now.tag.now asked.now.generated out.old }
{
    let room = out.len();
    report_lines_select::lay_out(asked, w, c);
    let line: Line = report_lines_write::line_in(asked.names, w, c, asked.marks.len(), out);
    answer(line.bytes, line.groups, room)
}

// The tests of the contents, the names' in the same table, so that no second one is needed, and then the line.
fn line_over(asked: &Asked, w: &mut [u32], c: usize, out: &mut [u8]) -> Result<Report, Refusal>
    requires { Fair asked.now.names.now asked.now.members.now asked.now.marks.now asked.now.list.now × LineTable asked.now.names.now asked.now.members.now asked.now.marks.now w.old c }
    ensures { outcome result (out.new ∷ []) ≡ line_told asked.now.names.now asked.now.members.now asked.now.marks.now asked.now.list.now asked.now.decoy asked.now.tag.now asked.now.generated out.old }
{
    let proteins = catalogue_names::name_count(asked.names);
    let named = catalogue_names::names_tested_in(asked.names, w);
    lists_tested(
        named,
        asked.members,
        asked.marks,
        asked.list,
        asked.tag,
        proteins,
    )?;
    line_laid(asked, w, c, out)
}

// With a table of its own, of W numbers for areas of c.
fn line_with<const W: usize>(asked: &Asked, c: usize, out: &mut [u8]) -> Result<Report, Refusal>
    requires { Fitting asked.now.names.now asked.now.members.now asked.now.marks.now asked.now.list.now c × (c ≤ 131072) × (3 * c + 18 ≤ W) × (W ≤ 393234) }
    ensures { outcome result (out.new ∷ []) ≡ line_told asked.now.names.now asked.now.members.now asked.now.marks.now asked.now.list.now asked.now.decoy asked.now.tag.now asked.now.generated out.old }
{
    let mut w = [0u32; W];
    line_over(asked, &mut w, c, out)
}

// Whether names, members and marks are no more than c each.
fn fit(names: usize, members: usize, marks: usize, c: usize) -> bool
    ensures { result ≡ (leb names c && leb members c && leb marks c) }
{
    (names <= c) & (members <= c) & (marks <= c)
}

// The line, or why not, where sizes and lengths passed, with the table for 1,024, 16,384, 65,536 or 131,072 of each: a few groups do not
// pay for the clearing of a large one. Where a room is not enough it calls itself with four times as much, so that each table has the
// stack to itself: the compiler joins no function that has large tables into one that calls itself.
fn line_of(room: usize, asked: &Asked, out: &mut [u8]) -> Result<Report, Refusal>
    requires { Fair asked.now.names.now asked.now.members.now asked.now.marks.now asked.now.list.now × (1 ≤ room) × (room ≤ 524288) }
    ensures { outcome result (out.new ∷ []) ≡ line_told asked.now.names.now asked.now.members.now asked.now.marks.now asked.now.list.now asked.now.decoy asked.now.tag.now asked.now.generated out.old }
{
    let proteins = asked.names.len() / 64;
    let held = asked.members.len() / 12;
    if !fit(proteins, held, asked.marks.len(), room) {
        return line_of(4 * room, asked, out);
    }
    if room <= 1024 {
        return line_with::<3090>(asked, 1024, out);
    }
    if room <= 16384 {
        return line_with::<49170>(asked, 16384, out);
    }
    if room <= 65536 {
        return line_with::<196626>(asked, 65536, out);
    }
    line_with::<393234>(asked, 131072, out)
}

// Writes the names of the marked groups that hold a protein of the list with the peptide's decoy flag, as document 01 has them,
// where there is room, and answers how many bytes they are and how many groups, whatever the names contain (document 02, [3]).
// (Eight parameters, as C's call has them.)
pub fn report_line(
    names: &[u8],
    members: &[u8],
    marks: &[u8],
    list: &[u32],
    decoy: bool,
    tag: &[u8],
    generated: bool,
    out: &mut [u8],
) -> Result<Report, Refusal>
    ensures { outcome result (out.new ∷ []) ≡ line_outcome names.now members.now marks.now list.now decoy tag.now generated out.old }
{
    if too_large(names, members, marks, list) {
        return Err(Refusal::Size);
    }
    if is_uneven(names, members) {
        return Err(Refusal::Length);
    }
    let asked = Asked {
        names,
        members,
        marks,
        list,
        decoy,
        tag,
        generated,
    };
    line_of(1024, &asked, out)
}

// What a line's answer tells of its tests: 11 comes after all of them.
fn tests_of(answer: Result<Report, Refusal>) -> Result<(), Refusal>
    ensures { result ≡ tests_of answer }
{
    match answer {
        Ok(_) | Err(Refusal::Room) => Ok(()),
        Err(why) => Err(why),
    }
}

// The first refusal that applies before the line is written, told by a line that is not kept.
pub fn tested(
    names: &[u8],
    members: &[u8],
    marks: &[u8],
    list: &[u32],
    tag: &[u8],
) -> Result<(), Refusal>
    ensures { result ≡ tested names.now members.now marks.now list.now tag.now }
{
    let mut line = [0u8; 1];
    let answer = report_line(names, members, marks, list, false, tag, false, &mut line);
    tests_of(answer)
}
