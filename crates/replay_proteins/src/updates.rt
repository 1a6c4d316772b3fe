// Updates. A line is the number of groups, that of meta-peptides, the old and the new edges as `group.meta`, divided by `;`,
// the marks given and those of the answer as digits; `-` stands for none.
use crate::covers::{group_count, is_held, meta_count};
use records::Refusal;
use text_fields::{Verdict, are_marks, is_zero, marks_at, records_at};

// The library's update: 4,672 numbers of work memory are enough for 200 groups and 200 meta-peptides with 512 edges.
fn update(
    line: &[u8],
    old: &[u8],
    new: &[u8],
    work: &mut [u32],
    marks: &mut [u8],
) -> Result<u32, Refusal> {
    let mut given = [0u8; 201];
    let n = marks_at(line, 4, &mut given);
    let groups = group_count(line);
    let metas = meta_count(line);
    cover::update(old, new, groups, metas, &given[..n], work, marks)
}

// Whether the library updates as the Rust did.
fn is_updated(line: &[u8], old: &[u8], new: &[u8]) -> bool {
    let mut work = [1u32; 4672];
    let mut marks = [2u8; 201];
    match update(line, old, new, &mut work, &mut marks) {
        Ok(count) => are_marks(line, 5, &marks, count) && is_zero(&work),
        Err(_) => false,
    }
}

pub fn replay_update(line: &[u8]) -> Verdict {
    let mut old = [0u8; 2048];
    let mut new = [0u8; 2048];
    let o = records_at(line, 2, &mut old);
    let n = records_at(line, 3, &mut new);
    if is_held(line) && o < 2048 && n < 2048 {
        return Verdict::of(is_updated(line, &old[..o], &new[..n]));
    }
    Verdict::TooLarge
}
