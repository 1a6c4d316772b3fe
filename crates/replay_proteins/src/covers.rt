// Covers. A line is the number of groups, that of meta-peptides, the edges as `group.meta`, divided by `;`, and the marks as
// digits; `-` stands for none.
use text_fields::{Verdict, are_marks, decimal_at, is_zero, records_at};

// The number of groups.
pub(crate) fn group_count(line: &[u8]) -> u32 {
    decimal_at(line, 0)
}

// The number of meta-peptides.
// Both are `decimal_at`, named for what they answer.
pub(crate) fn meta_count(line: &[u8]) -> u32 {
    decimal_at(line, 1)
}

// Whether the buffers hold the marks and the work memory of a line.
pub(crate) fn is_held(line: &[u8]) -> bool {
    group_count(line) <= 200 && meta_count(line) <= 200
}

// Whether the library covers as the Rust did: 3,136 numbers of work memory are enough for 200 groups and 200
// meta-peptides with 256 edges.
fn is_covered(line: &[u8], edges: &[u8]) -> bool {
    let mut work = [1u32; 3136];
    let mut marks = [2u8; 201];
    let groups = group_count(line);
    let metas = meta_count(line);
    match cover::cover(edges, groups, metas, &mut work, &mut marks) {
        Ok(count) => are_marks(line, 3, &marks, count) && is_zero(&work),
        Err(_) => false,
    }
}

pub fn replay_cover(line: &[u8]) -> Verdict {
    let mut edges = [0u8; 2048];
    let n = records_at(line, 2, &mut edges);
    if is_held(line) && n < 2048 {
        return Verdict::of(is_covered(line, &edges[..n]));
    }
    Verdict::TooLarge
}
