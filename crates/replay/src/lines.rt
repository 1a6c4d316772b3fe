// The lines of a file, each with an answer of the Rust.
use crate::tally::Tally;
use std::io;
use text_fields::Verdict;
use text_lines::line_end;

// What the lines of a file hold.
#[derive(Clone, Copy)]
pub(crate) enum Kind {
    Entries,
    Rules,
    Insertions,
    Forms,
    Masses,
    Digests,
    DigestGroups,
    Covers,
    Updates,
    ProteinGroups,
    ReportLines,
    Passes,
}

// Replays one line. Memory is lent for the library's answer, and to the next line for what this one leaves.
fn replay_line(kind: Kind, line: &[u8], memory: &mut [u8]) -> Verdict {
    match kind {
        Kind::Entries => replay_entries::replay_entries(line),
        Kind::Rules => replay_peptides::replay_rule(line),
        Kind::Insertions => replay_peptides::replay_insertion(line, memory),
        Kind::Forms => replay_peptides::replay_forms(line, memory),
        Kind::Masses => replay_peptides::replay_mass(line),
        Kind::Digests => replay_digests::replay_digests(line, memory),
        Kind::DigestGroups => replay_digests::replay_groups(line),
        Kind::Covers => replay_proteins::replay_cover(line),
        Kind::Updates => replay_proteins::replay_update(line),
        Kind::ProteinGroups => replay_proteins::replay_groups(line),
        Kind::ReportLines => replay_proteins::replay_line(line),
        Kind::Passes => replay_proteins::replay_pass(line),
    }
}

// Replays the lines of a text, one after the other.
pub(crate) fn replay(
    rt: &impl Print,
    kind: Kind,
    s: &[u8],
    memory: &mut [u8],
) -> io::Result<Tally> {
    let mut tally = Tally::none();
    let mut at = 0;
    // A while: a turn goes on behind the line that it read.
    while at < s.len() {
        let end = line_end(s, at);
        tally = tally.with(rt, replay_line(kind, &s[at..end], memory))?;
        at = end + 1;
    }
    Ok(tally)
}
