// Reads sequence files (FASTA) one entry after the other: a reader keeps the lent bytes and its place. The work is done by
// `fasta::read_entry`.
#![tactic(auto)]

mod places;

ghost use Rattle.std.specs.Prelude.{◌≡◌, [], ◌∷◌};
ghost use Rattle.records.specs.Outcome.{outcome};
ghost use Rattle.fasta.specs.Entries.{read_outcome};
ghost use Rattle.fasta_reader.specs.Places.{place_after};

use fasta::{Entry, Fault, read_entry};
pub use places::place_after;

// The bytes of a file, and the place from which the next entry is read.
#[derive(Drop)]
pub struct Reader<'a> {
    pub bytes: &'a [u8],
    pub at: usize,
}

// A reader at the first byte.
pub fn open<'a>(bytes: &'a [u8]) -> Reader<'a>
    ensures { (result.bytes ≡ bytes.entry) × (result.at ≡ 0) }
{
    Reader { bytes, at: 0 }
}

// Reads the entry at the reader's place. The reader then stands behind an entry that was found, else where it stood.
pub fn next<'s, 'a, 'n, 'l>(
    r: &'s mut Reader<'a>,
    name: &'n mut [u8],
    letters: &'l mut [u8],
) -> Result<Option<Entry>, Fault>
    ensures { (outcome result (name.new ∷ letters.new ∷ []) ≡ read_outcome r.old.bytes.now r.old.at name.old letters.old) × (r.new.bytes ≡ r.old.bytes) × (r.new.at ≡ place_after result r.old.at) }
{
    let at = r.at;
    let answer = read_entry(r.bytes, at, name, letters);
    r.at = place_after(answer, at);
    answer
}

// Reads the first entry of a file.
pub fn first(bytes: &[u8], name: &mut [u8], letters: &mut [u8]) -> Result<Option<Entry>, Fault>
    ensures { outcome result (name.new ∷ letters.new ∷ []) ≡ read_outcome bytes.now 0 name.old letters.old }
{
    let mut r = open(bytes);
    next(&mut r, name, letters)
}
