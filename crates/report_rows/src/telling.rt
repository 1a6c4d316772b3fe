// A text's story, step by step: what one step makes is lent to the next.
ghost use Rattle.std.specs.Prelude.{◌≡◌, length};

use protein_groups::Sizes;
use report_rows_print::Groups;
use report_rows_read::{has_bad_peptide, has_long_name};
use std::io;
use text_lines::{line_end, narrow, table, up_to};

// Marks the groups of the cover.
fn cover_groups(
    rt: &impl Print,
    tag: &[u8],
    s: &[u8],
    pairs: &[u8],
    names: &[u8],
    edges: &[u8],
    members: &[u8],
    sizes: Sizes,
    work: &mut [u32],
) -> io::Result<()> {
    let mut marks = [0u8; 8192];
    match cover::cover(edges, sizes.groups, sizes.metas, work, &mut marks) {
        Err(why) => report_rows_print::refusal(rt, why),
        Ok(count) => {
            let n = up_to(count as usize, &marks);
            let groups = Groups {
                tag,
                names,
                members,
                marks: &marks[..n],
            };
            report_rows_print::report(rt, s, pairs, &groups)
        }
    }
}

// Groups the proteins.
fn group_names(
    rt: &impl Print,
    tag: &[u8],
    s: &[u8],
    flags: &[u8],
    pairs: &[u8],
    names: &[u8],
) -> io::Result<()> {
    // 8 x 4,096 + 4 x 4,096 + 6 x 16,384 numbers.
    let mut work = table::<u32, 147456>(0);
    // 16,384 edges.
    let mut edges = table::<u8, 131072>(0);
    // 8,192 members: each name from targets and from decoys.
    let mut members = table::<u8, 98304>(0);
    let peptides = narrow(flags.len());
    let proteins = narrow(names.len() / 64);
    let answer = protein_groups::group_proteins(
        pairs,
        flags,
        peptides,
        proteins,
        &mut work,
        &mut edges,
        &mut members,
    );
    match answer {
        Err(why) => report_rows_print::refused_flag(rt, s, why),
        Ok(sizes) => {
            let e = up_to(8 * sizes.edges as usize, &edges);
            let m = up_to(12 * sizes.members as usize, &members);
            cover_groups(
                rt,
                tag,
                s,
                pairs,
                names,
                &edges[..e],
                &members[..m],
                sizes,
                &mut work,
            )
        }
    }
}

// Tests the names.
fn tell_names(
    rt: &impl Print,
    tag: &[u8],
    s: &[u8],
    flags: &[u8],
    pairs: &[u8],
    known: &[u8],
    count: u32,
) -> io::Result<()> {
    // 4,096 names.
    let mut names = table::<u8, 262144>(0);
    report_rows_read::put_names(s, known, count, &mut names);
    let n = up_to(64 * count as usize, &names);
    match catalogue::names_tested(&names[..n]) {
        Err(why) => report_rows_print::refused_name(rt, s, known, why),
        Ok(()) => group_names(rt, tag, s, flags, pairs, &names[..n]),
    }
}

// Numbers the names.
fn tell_columns(
    rt: &impl Print,
    tag: &[u8],
    s: &[u8],
    flags: &[u8],
    columns: &[u8],
    count: u32,
) -> io::Result<()> {
    // 4,096 columns.
    let mut known = table::<u8, 49152>(0);
    // 16,384 pairs.
    let mut pairs = table::<u8, 131072>(0);
    let found = report_rows_read::number_names(s, columns, count, &mut known, &mut pairs);
    if 4096 < found {
        return report_rows_print::too_large(rt, "4096 names");
    }
    let n = up_to(8 * count as usize, &pairs);
    tell_names(rt, tag, s, flags, &pairs[..n], &known, found)
}

// Reads the rows.
fn tell_rows(rt: &impl Print, tag: &[u8], s: &[u8]) -> io::Result<()> {
    let mut flags = [0u8; 4096];
    // 16,384 columns.
    let mut columns = table::<u8, 196608>(0);
    let rows = report_rows_read::read_flags(s, &mut flags);
    let count = report_rows_read::read_columns(s, &mut columns);
    if 4096 < rows {
        return report_rows_print::too_large(rt, "4096 rows");
    }
    if 16384 < count {
        return report_rows_print::too_large(rt, "16384 pairs");
    }
    let n = up_to(rows as usize, &flags);
    tell_columns(rt, tag, s, &flags[..n], &columns, count)
}

// The tag on the first line, the rows behind it.
pub(crate) fn tell(rt: &impl Print, text: &[u8]) -> io::Result<()> {
    let end = line_end(text, 0);
    let tag = &text[0..end];
    let s = &text[end..];
    if report_rows_print::refuses(
        rt,
        s,
        |line, _| has_bad_peptide(line),
        2,
        "a peptide that is not letters",
    )? {
        return Ok(());
    }
    if report_rows_print::refuses(
        rt,
        s,
        |line, _| has_long_name(line),
        12,
        "a name of more than 64 bytes",
    )? {
        return Ok(());
    }
    tell_rows(rt, tag, s)
}
