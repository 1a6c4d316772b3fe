// Groups of proteins. A line is the flags of the peptides as digits, the number of proteins, the pairs as `peptide.protein`, divided
// by `;`, the numbers of the Rust's groups and meta-peptides, its edges as `group.meta` and its members as
// `group.protein.decoy`, divided by `;`; `-` stands for none.
use check::same;
use text_fields::{Verdict, decimal_at, is_zero, marks_at, records_at};
use text_lines::narrow;

fn protein_count(line: &[u8]) -> u32 {
    decimal_at(line, 1)
}

// Whether the numbers of groups and meta-peptides are those of a line.
fn has_counts(line: &[u8], groups: u32, metas: u32) -> bool {
    decimal_at(line, 3) == groups && decimal_at(line, 4) == metas
}

// Whether so many bytes are the records of field k, and nothing is written behind them: all were 7.
fn are_records(line: &[u8], k: usize, ours: &[u8], bytes: usize) -> bool {
    let mut theirs = [7u8; 1560];
    let n = records_at(line, k, &mut theirs);
    n == bytes && same(&theirs, ours)
}

// Whether the library groups as the Rust did: 1,024 numbers of work memory are enough for 64 proteins, 31 peptides and 63 pairs.
fn is_grouped(line: &[u8], flags: &[u8], pairs: &[u8]) -> bool {
    let mut work = [1u32; 1024];
    let mut edges = [7u8; 1560];
    let mut members = [7u8; 1560];
    let peptides = narrow(flags.len());
    let proteins = protein_count(line);
    let answer = protein_groups::group_proteins(
        pairs,
        flags,
        peptides,
        proteins,
        &mut work,
        &mut edges,
        &mut members,
    );
    match answer {
        Ok(sizes) => {
            has_counts(line, sizes.groups, sizes.metas)
                && are_records(line, 5, &edges, 8 * sizes.edges as usize)
                && are_records(line, 6, &members, 12 * sizes.members as usize)
                && is_zero(&work)
        }
        Err(_) => false,
    }
}

pub fn replay_groups(line: &[u8]) -> Verdict {
    let mut flags = [2u8; 32];
    let mut pairs = [0u8; 512];
    let f = marks_at(line, 0, &mut flags);
    let n = records_at(line, 2, &mut pairs);
    if protein_count(line) <= 64 && f < 32 && n < 512 {
        return Verdict::of(is_grouped(line, &flags[..f], &pairs[..n]));
    }
    Verdict::TooLarge
}
