// What replayed lines come to.
use std::io;
use text_fields::Verdict;
use text_lines::more;

// How many lines were read, how many answers they hold, and how many of these differ.
#[derive(Drop)]
pub(crate) struct Tally {
    lines: u32,
    answers: u32,
    differ: u32,
}

impl Tally {
    pub(crate) fn none() -> Tally {
        Tally {
            lines: 0,
            answers: 0,
            differ: 0,
        }
    }

    // One line more.
    pub(crate) fn with(self, rt: &impl Print, verdict: Verdict) -> io::Result<Tally> {
        match verdict {
            Verdict::Agrees => Ok(Tally {
                lines: more(self.lines),
                answers: more(self.answers),
                differ: self.differ,
            }),
            Verdict::NoAnswer => Ok(Tally {
                lines: more(self.lines),
                answers: self.answers,
                differ: self.differ,
            }),
            Verdict::Differs => self.failed(rt, "differs"),
            Verdict::TooLarge => self.failed(rt, "is larger than this program's buffers"),
        }
    }

    // One line more, of which it is said why it fails.
    fn failed(self, rt: &impl Print, why: &str) -> io::Result<Tally> {
        let lines = more(self.lines);
        println!(rt; "line {lines} {why}")?;
        Ok(Tally {
            lines,
            answers: more(self.answers),
            differ: more(self.differ),
        })
    }

    pub(crate) fn report(self, rt: &impl Print, what: &str) -> io::Result<()> {
        println!(rt; "{what}: {} compared, {} differ", self.answers, self.differ)
    }
}
