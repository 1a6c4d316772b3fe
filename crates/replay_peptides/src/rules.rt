// Rule texts. A line is the text in hexadecimal or `-` for an empty one, then the number, the place, the kind and the letter
// that the Rust's answer comes to.
use letters::LetterSet;
use modification::Specificity;
use records::Refusal;
use text_fields::{Verdict, bytes_at, decimal_at};
use text_lines::narrow;

// The letters that the Rust takes: all but B, J, X and Z.
const ALPHABET: LetterSet = LetterSet { mask: 0x017f_fdfd };

#[derive(Clone, Copy)]
struct Answer {
    number: u32,
    place: u32,
    kind: u32,
    letter: u32,
}

fn answer_of(parsed: Result<Specificity, Refusal>) -> Answer {
    match parsed {
        Ok(s) => Answer {
            number: 0,
            place: 0,
            kind: u32::from(s.kind()),
            letter: u32::from(s.letter()),
        },
        Err(why) => Answer {
            number: why.number(),
            place: narrow(why.place()),
            kind: 0,
            letter: 0,
        },
    }
}

pub fn replay_rule(line: &[u8]) -> Verdict {
    let mut text = [0u8; 64];
    let n = bytes_at(line, 0, &mut text);
    let ours = answer_of(modification::parse(&text[..n], ALPHABET));
    Verdict::of(
        (ours.number == decimal_at(line, 1))
            & (ours.place == decimal_at(line, 2))
            & (ours.kind == decimal_at(line, 3))
            & (ours.letter == decimal_at(line, 4)),
    )
}
