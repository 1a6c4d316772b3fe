// Lists the digests of a protein, one to a line, as eight numbers: start end missed semi position decoy protein
// and how often its letters occur.
//
// Standard input has on its first line, parted by single blanks,
//     CLEAVE SKIP SIDE SEMI MISSED MINIMUM MAXIMUM PROTEIN
// and behind it the protein's letters, on as many lines as you like. CLEAVE is a set of letters, $ for the end alone or -
// for none; SKIP is a set of letters or -; SIDE is C or N; SEMI is 1 or 0; the others are numbers. The alphabet is A to Z;
// small letters read as capitals, in sets and in the protein.
// A refusal is written with document 01's number and place. It holds 131,071 bytes of input and 131,072 digests, and
// says so where that is too little: the library itself writes into whatever buffer it is lent.
#![tactic(auto)]

mod text;

ghost use Rattle.std.specs.Prelude.{◌≡◌, length};

use letters::LetterSet;
use records::Refusal;
use std::io;

fn input() -> [u8; 131072]
    ensures { 131072 ≡ length result }
{
    [0; 131072]
}

fn output() -> [u8; 2621440]
    ensures { 2621440 ≡ length result }
{
    [0; 2621440]
}

fn say(rt: &impl Print, line: &str) -> io::Result<()> {
    println!(rt; "{line}")
}

fn refuse(rt: &impl Print, why: Refusal) -> io::Result<()> {
    match why {
        Refusal::Room => say(
            rt,
            "there are more digests than the 131072 that this program holds",
        ),
        _ => text_digests::refusal(rt, why),
    }
}

// Lists the digests of some letters.
fn list(rt: &impl Print, letters: &[u8], line: &[u8], out: &mut [u8]) -> io::Result<()> {
    let asked = text_digests::read_request(line);
    let enzyme = asked.enzyme;
    let settings = asked.settings;
    let answer = enzyme::digest(
        letters,
        LetterSet::ALL,
        enzyme,
        settings,
        text_fields::decimal_at(line, 7),
        out,
    );
    match answer {
        Ok(count) => text_digests::print_all(rt, out, count),
        Err(why) => refuse(rt, why),
    }
}

// The request on the first line, the letters behind it.
fn run(rt: &impl Print, input: &[u8], letters: &mut [u8], out: &mut [u8]) -> io::Result<()> {
    let end = text_lines::line_end(input, 0);
    let line = &input[..end];
    if text_fields::field(line, 7) == end {
        return say(
            rt,
            "the first line is: CLEAVE SKIP SIDE SEMI MISSED MINIMUM MAXIMUM PROTEIN",
        );
    }
    let n = text::squeeze(&input[end..], letters);
    list(rt, &letters[..n], line, out)
}

fn main(rt: HostRuntime) -> io::Result<()> {
    let mut bytes = input();
    let n = text_lines::read_full(&mut rt.reader(), &mut bytes);
    if n == 131072 {
        return say(
            &rt,
            "the input is larger than the 131071 bytes that this program holds",
        );
    }
    let mut letters = input();
    let mut out = output();
    run(&rt, &bytes[..n], &mut letters, &mut out)
}
