// Groups of digests. A line is the names in hexadecimal without the zeros behind them, divided by `;`, the boundaries, the
// letters, the digest records in hexadecimal, the number of the Rust's groups, these as `reference.first.count`, divided by
// `;`, where the reference is its number in the list of digests, and the numbers of their proteins. Buffers have room for one
// record more than they hold, so that one too many is seen.
use records::u32_at;
use sorting_texts::number_at;
use text_fields::{
    Verdict, bytes_at, content, decimal_at, field, field_end, is_zero, names_at, numbers_at,
    same_numbers,
};

// Whether record k begins with the 20 bytes of a digest.
fn has_reference(digests: &[u8], reference: u32, groups: &[u8], k: u32) -> bool {
    let from = 20 * reference as usize;
    let at = 28 * k as usize;
    (u32_at(digests, from) == u32_at(groups, at))
        & (u32_at(digests, from + 4) == u32_at(groups, at + 4))
        & (u32_at(digests, from + 8) == u32_at(groups, at + 8))
        & (u32_at(digests, from + 12) == u32_at(groups, at + 12))
        & (u32_at(digests, from + 16) == u32_at(groups, at + 16))
}

// Whether record k is group k of the Rust, which has three numbers for each.
fn is_group(theirs: &[u32], digests: &[u8], groups: &[u8], k: u32) -> bool {
    let i = 3 * k as usize;
    let at = 28 * k as usize;
    has_reference(digests, number_at(theirs, i), groups, k)
        & (number_at(theirs, i + 1) == u32_at(groups, at + 20))
        & (number_at(theirs, i + 2) == u32_at(groups, at + 24))
}

// Whether the first count records are the Rust's groups.
fn are_groups(theirs: &[u32], digests: &[u8], groups: &[u8], count: u32) -> bool {
    let mut same = theirs.len() == 3 * count as usize;
    for k in 0..count {
        same = same & is_group(theirs, digests, groups, k);
    }
    same
}

// Whether the groups are those of a line.
fn has_groups(line: &[u8], digests: &[u8], groups: &[u8], count: u32) -> bool {
    let mut theirs = [0u32; 63];
    let n = numbers_at(line, 5, &mut theirs);
    (decimal_at(line, 4) == count) & are_groups(&theirs[..n], digests, groups, count)
}

// Whether the proteins are those of a line, and nothing is written behind them: all were 9.
fn has_proteins(line: &[u8], proteins: &[u32]) -> bool {
    let mut theirs = [9u32; 21];
    let n = numbers_at(line, 6, &mut theirs);
    (n < 21) & same_numbers(&theirs, proteins)
}

// Whether the library groups as the Rust did: 136 numbers of work memory are enough for 4 names and 20 digests.
fn is_grouped(line: &[u8], names: &[u8], bounds: &[u32], letters: &[u8], digests: &[u8]) -> bool {
    let mut work = [1u32; 136];
    let mut groups = [0u8; 588];
    let mut proteins = [9u32; 21];
    let answer = digest_groups::group_digests(
        names,
        bounds,
        letters,
        digests,
        &mut work,
        &mut groups,
        &mut proteins,
    );
    match answer {
        Ok(count) => {
            has_groups(line, digests, &groups, count)
                & has_proteins(line, &proteins)
                & is_zero(&work)
        }
        Err(_) => false,
    }
}

// The same, for the letters of a line.
fn is_spelt(line: &[u8], names: &[u8], bounds: &[u32], digests: &[u8]) -> bool {
    let from = field(line, 2);
    let to = field_end(line, from);
    let n = content(&line[from..to]);
    is_grouped(line, names, bounds, &line[from..from + n], digests)
}

pub fn replay_groups(line: &[u8]) -> Verdict {
    let mut names = [0u8; 320];
    let mut bounds = [0u32; 6];
    let mut digests = [0u8; 420];
    let n = names_at(line, &mut names);
    let b = numbers_at(line, 1, &mut bounds);
    let d = bytes_at(line, 3, &mut digests);
    if (n < 320) & (b < 6) & (d < 420) {
        return Verdict::of(is_spelt(line, &names[..n], &bounds[..b], &digests[..d]));
    }
    Verdict::TooLarge
}
