// Whole passes: groups of proteins, their cover, and the report lines of all peptides. A line is the names in hexadecimal, divided by
// `;`, the flags of the peptides as digits, the pairs as `peptide.protein`, divided by `;`, the tag in hexadecimal, whether decoys
// are generated, the Rust's texts in hexadecimal, divided by `;`, and their numbers of groups, divided by `.`; `-` stands for none.
ghost use Rattle.std.specs.Prelude.{◌+◌, ◌≤◌, length};
ghost use Rattle.io.specs.Counts.{IsPrefixLen};

use protein_groups::Sizes;
use records::u32_at;
use text_fields::{
    Verdict, bytes_at, field, is_set, is_text, item_end, marks_at, names_at, numbers_at, records_at,
};
use text_lines::{narrow, up_to};

fn counted(n: usize, more: bool) -> usize
    requires { n ≤ 63 }
    ensures { result ≤ n + 1 }
{
    if more { n + 1 } else { n }
}

// The proteins of a peptide in the order of its pairs, of which there are at most 64, at the front of out: how many there are. What is
// written behind them is of no use.
fn proteins_of(pairs: &[u8], peptide: u32, out: &mut [u32]) -> usize
    ensures { IsPrefixLen result out.new }
{
    let mut n: usize = 0;
    for k in 0..64usize {
        if out.len() <= n {
            return n;
        }
        let at = 8 * k;
        out[n] = u32_at(pairs, at + 4);
        n = counted(n, at < pairs.len() && u32_at(pairs, at) == peptide);
    }
    n
}

// How many groups a line has for a peptide.
fn groups_of(line: &[u8], peptide: u32) -> u32 {
    let mut groups = [0u32; 32];
    let n = numbers_at(line, 6, &mut groups);
    let i = peptide as usize;
    if i < n { groups[i] } else { 0 }
}

// Whether the library writes an item's text as the Rust did, and names so many groups.
fn is_written(
    line: &[u8],
    names: &[u8],
    members: &[u8],
    marks: &[u8],
    list: &[u32],
    decoy: bool,
    item: &[u8],
    groups: u32,
) -> bool {
    let mut tag = [0u8; 17];
    let mut out = [7u8; 256];
    let t = bytes_at(line, 3, &mut tag);
    let generated = is_set(line, 4);
    let answer = report_lines::report_line(
        names,
        members,
        marks,
        list,
        decoy,
        &tag[..t],
        generated,
        &mut out,
    );
    match answer {
        Ok(report) => report.groups == groups && is_text(item, &out, report.bytes),
        Err(_) => false,
    }
}

// The same, for the proteins of a peptide.
fn is_line(
    line: &[u8],
    names: &[u8],
    members: &[u8],
    marks: &[u8],
    pairs: &[u8],
    peptide: u32,
    decoy: bool,
    item: &[u8],
) -> bool {
    let mut list = [0u32; 64];
    let n = proteins_of(pairs, peptide, &mut list);
    let groups = groups_of(line, peptide);
    is_written(line, names, members, marks, &list[..n], decoy, item, groups)
}

// Behind the byte that ends an item, or the end.
fn next_item(line: &[u8], end: usize) -> usize
    requires { end ≤ length line.now }
    ensures { result ≤ length line.now }
{
    line.len().min(end + 1)
}

// Whether the texts of all peptides and their numbers of groups are those of a line.
fn are_lines(
    line: &[u8],
    names: &[u8],
    members: &[u8],
    marks: &[u8],
    pairs: &[u8],
    flags: &[u8],
) -> bool {
    let mut same = true;
    let mut at = field(line, 5);
    for (i, flag) in flags.iter().enumerate() {
        let end = item_end(line, at);
        same = same
            & is_line(
                line,
                names,
                members,
                marks,
                pairs,
                narrow(i),
                *flag == 1,
                &line[at..end],
            );
        at = next_item(line, end);
    }
    same
}

// Whether they are so with the library's cover: 1,024 numbers of work memory are enough for 128 groups, 31 meta-peptides and 63 edges.
fn is_covered(
    line: &[u8],
    names: &[u8],
    members: &[u8],
    edges: &[u8],
    sizes: Sizes,
    pairs: &[u8],
    flags: &[u8],
) -> bool {
    let mut work = [1u32; 1024];
    let mut marks = [2u8; 128];
    match cover::cover(edges, sizes.groups, sizes.metas, &mut work, &mut marks) {
        Ok(count) => {
            let n = up_to(count as usize, &marks);
            are_lines(line, names, members, &marks[..n], pairs, flags)
        }
        Err(_) => false,
    }
}

// Whether they are so with the library's groups and their cover.
fn is_passed(line: &[u8], names: &[u8], flags: &[u8], pairs: &[u8]) -> bool {
    let mut work = [1u32; 1024];
    let mut edges = [0u8; 512];
    let mut members = [0u8; 1560];
    let peptides = narrow(flags.len());
    let proteins = narrow(names.len() / 64);
    let answer = protein_groups::group_proteins(
        pairs,
        flags,
        peptides,
        proteins,
        &mut work,
        &mut edges,
        &mut members,
    );
    match answer {
        Ok(sizes) => {
            let e = up_to(8 * sizes.edges as usize, &edges);
            let m = up_to(12 * sizes.members as usize, &members);
            is_covered(line, names, &members[..m], &edges[..e], sizes, pairs, flags)
        }
        Err(_) => false,
    }
}

pub fn replay_pass(line: &[u8]) -> Verdict {
    let mut names = [0u8; 896];
    let mut flags = [2u8; 32];
    let mut pairs = [0u8; 512];
    let n = names_at(line, &mut names);
    let f = marks_at(line, 1, &mut flags);
    let p = records_at(line, 2, &mut pairs);
    if n < 896 && f < 32 && p < 512 {
        return Verdict::of(is_passed(line, &names[..n], &flags[..f], &pairs[..p]));
    }
    Verdict::TooLarge
}
