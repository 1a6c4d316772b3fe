// Where a reader stands.
ghost use Rattle.std.specs.Prelude.{◌≡◌};
ghost use Rattle.fasta_reader.specs.Places.{place_after};

use fasta::{Entry, Fault};

// Where a reader that stood at a place stands after an answer: behind an entry that was found, else where it stood.
pub fn place_after(answer: Result<Option<Entry>, Fault>, at: usize) -> usize
    ensures { result ≡ place_after answer at }
{
    match answer {
        Ok(Some(entry)) => entry.next,
        Ok(None) => at,
        Err(_) => at,
    }
}
