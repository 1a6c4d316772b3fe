// What an answer is held to.
use crate::hexadecimals::unhex;
use check::same;

// Whether work memory is zero.
pub fn is_zero(work: &[u32]) -> bool {
    // No `all`: it ends at the first that is not, so that numbers go one by one, and what is lent is long and mostly zero.
    let mut bits = 0;
    for number in work {
        bits |= *number;
    }
    bits == 0
}

pub fn same_numbers(a: &[u32], b: &[u32]) -> bool {
    a == b
}

// Whether so many bytes are the text at the front of s, and nothing is written behind them: all were 7. `-` stands for none.
pub fn is_text(s: &[u8], ours: &[u8], bytes: u32) -> bool {
    let mut theirs = [7u8; 256];
    let n = unhex(s, &mut theirs);
    (n == bytes as usize) & same(&theirs, ours)
}
