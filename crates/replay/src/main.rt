// Replays answers of the original Rust against the library. Each file of data/ holds answers of one kind, one to a line; how a line
// reads stands at the head of the module that replays it (crates replay_entries, replay_peptides, replay_digests, replay_proteins). Says how many
// answers of each file were compared and how many differ, and the line of each that does; of a file that is missing, that it has
// none. Answers on letters are replayed a second time with every second letter small (document 02, [2]).
#![tactic(auto)]

mod lines;
mod masking;
mod tally;

ghost use Rattle.std.specs.Prelude.{IfOk};
ghost use Rattle.io.specs.Counts.{IsPrefixLen};

use lines::Kind;
use std::fs;
use std::rt::Files;
use text_lines::read_full;

// The bytes of a file at the front of a buffer: how many there are. Says so where they leave no byte free, as some may be lacking.
fn load<R: Files + Print + Eprint>(rt: &R, path: &str, buffer: &mut [u8]) -> std::io::Result<usize>
    ensures { IfOk result (λ n. IsPrefixLen n buffer.new) }
{
    match fs::open(rt, path) {
        Ok(mut file) => {
            let n = read_full(&mut file, buffer);
            if n == buffer.len() {
                println!(rt; "{path} may be larger than its buffer")?;
            }
            Ok(n)
        }
        Err(why) => {
            eprintln!(rt; "{path}: {why}")?;
            Ok(0)
        }
    }
}

fn replay_file<R: Files + Print + Eprint>(
    rt: &R,
    kind: Kind,
    path: &str,
    what: &str,
) -> std::io::Result<()> {
    let mut text = io::large_buffer();
    let mut memory = io::large_buffer();
    let n = load(rt, path, &mut text)?;
    let tally = lines::replay(rt, kind, &text[..n], &mut memory)?;
    tally.report(rt, what)
}

// The same with small letters in a column.
fn replay_masked<R: Files + Print + Eprint>(
    rt: &R,
    kind: Kind,
    path: &str,
    column: u32,
    what: &str,
) -> std::io::Result<()> {
    let mut text = io::large_buffer();
    let mut memory = io::large_buffer();
    let n = load(rt, path, &mut text)?;
    masking::mask(&mut text, column);
    let tally = lines::replay(rt, kind, &text[..n], &mut memory)?;
    tally.report(rt, what)
}

fn main(rt: HostRuntime) -> std::io::Result<()> {
    replay_file(&rt, Kind::Entries, "fasta.txt", "sequence files")?;
    replay_file(&rt, Kind::Rules, "rules.txt", "rule texts")?;
    replay_file(&rt, Kind::Insertions, "table.txt", "table")?;
    replay_file(&rt, Kind::Digests, "digest.txt", "digests")?;
    replay_file(&rt, Kind::Forms, "forms.txt", "forms")?;
    replay_file(&rt, Kind::Masses, "masses.txt", "base masses")?;
    replay_file(&rt, Kind::DigestGroups, "groups.txt", "groups")?;
    replay_file(&rt, Kind::Covers, "cover.txt", "covers")?;
    replay_file(&rt, Kind::Updates, "update.txt", "updates")?;
    replay_file(
        &rt,
        Kind::ProteinGroups,
        "proteins.txt",
        "groups of proteins",
    )?;
    replay_file(&rt, Kind::ReportLines, "lines.txt", "report lines")?;
    replay_file(&rt, Kind::Passes, "passes.txt", "passes")?;
    replay_masked(
        &rt,
        Kind::Digests,
        "digest.txt",
        0,
        "digests, every second letter small",
    )?;
    replay_masked(
        &rt,
        Kind::Forms,
        "forms.txt",
        0,
        "forms, every second letter small",
    )?;
    replay_masked(
        &rt,
        Kind::Masses,
        "masses.txt",
        0,
        "base masses, every second letter small",
    )?;
    replay_masked(
        &rt,
        Kind::DigestGroups,
        "groups.txt",
        2,
        "groups, every second letter small",
    )
}
