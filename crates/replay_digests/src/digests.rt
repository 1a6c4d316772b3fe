// Digests. A line is the letters or `-` for none, the kind of the enzyme (0 none, 1 the end alone, 2 a set), its sets in
// hexadecimal, its side (0 C, 1 N), semi, the settings, the number of the Rust's digests, and these: start, end, missed,
// semi and position of each, and how many different ranges of the Rust's own list of sites show its letters.
use enzyme::{Enzyme, Kind, Settings, Side};
use letters::LetterSet;
use records::{byte_at, u32_at};
use text_fields::{
    Verdict, behind, decimal, decimal_at, field, hex_at, is_set, letter_count, small_at,
};

fn set_at(line: &[u8], k: usize) -> LetterSet {
    let mask = hex_at(line, k);
    LetterSet { mask }
}

fn kind_of(line: &[u8]) -> Kind {
    match decimal_at(line, 1) {
        0 => Kind::None,
        1 => Kind::End,
        _ => Kind::Set(set_at(line, 2)),
    }
}

fn side_of(line: &[u8]) -> Side {
    if is_set(line, 4) { Side::N } else { Side::C }
}

fn enzyme_of(line: &[u8]) -> Enzyme {
    let kind = kind_of(line);
    let skip = set_at(line, 3);
    let side = side_of(line);
    let semi = is_set(line, 5);
    Enzyme {
        kind,
        skip,
        side,
        semi,
    }
}

// Not shared with text_digests, whose line has them two fields earlier: a number of a field would say less.
fn settings_of(line: &[u8]) -> Settings {
    let missed = small_at(line, 6);
    let minimum = decimal_at(line, 7);
    let maximum = decimal_at(line, 8);
    Settings {
        missed,
        minimum,
        maximum,
    }
}

// Whether record k has the range that stands at a place of a line.
fn has_range(line: &[u8], at: usize, out: &[u8], k: u32) -> bool {
    let from = 20 * k as usize;
    let start = decimal(line, at);
    let end = decimal(line, behind(line, at));
    (start == u32_at(out, from)) & (end == u32_at(out, from + 4))
}

// Whether record k has the missed cleavages, the semi flag, the position and the number of ranges that stand at a place of a line.
fn has_marks(line: &[u8], at: usize, out: &[u8], k: u32) -> bool {
    let from = 20 * k as usize;
    let semi = behind(line, at);
    let position = behind(line, semi);
    let times = behind(line, position);
    (decimal(line, at) == u32::from(byte_at(out, from + 8)))
        & (decimal(line, semi) == u32::from(byte_at(out, from + 9)))
        & (decimal(line, position) == u32::from(byte_at(out, from + 10)))
        & (decimal(line, times) == u32_at(out, from + 16))
}

// Whether the first count records are the Rust's digests.
fn are_digests(line: &[u8], out: &[u8], count: u32) -> bool {
    let mut same = decimal_at(line, 9) == count;
    let mut at = field(line, 10);
    for k in 0..count {
        let marks = behind(line, behind(line, at));
        same = same & has_range(line, at, out, k) & has_marks(line, marks, out, k);
        at = behind(line, behind(line, behind(line, behind(line, marks))));
    }
    same
}

// The output is lent; what it holds does not matter.
pub fn replay_digests(line: &[u8], out: &mut [u8]) -> Verdict {
    let n = letter_count(line);
    let enzyme = enzyme_of(line);
    let settings = settings_of(line);
    match enzyme::digest(&line[0..n], LetterSet::ALL, enzyme, settings, 0, out) {
        Ok(count) => Verdict::of(are_digests(line, out, count)),
        Err(_) => Verdict::Differs,
    }
}
