// How reading an entry of a sequence file is told.
ghost use Rattle.std.specs.Prelude.{◌≡◌, List, [], ◌∷◌};
ghost use Rattle.records.specs.Outcome.{outcome};
ghost use Rattle.sendumaal_calls.specs.FileCalls.{found_call};

use fasta::{Entry, Fault};

// The number and the place; of an entry the place behind it and how many letters it has; whether there is one.
pub fn told_entry(
    answer: Result<Option<Entry>, Fault>,
    next: &mut usize,
    count: &mut u32,
    found: &mut u32,
    place: &mut usize,
) -> u32
    ensures { outcome result ((place.new ∷ []) ∷ (next.new ∷ []) ∷ (count.new ∷ []) ∷ (found.new ∷ []) ∷ []) ≡ found_call answer next.old count.old found.old }
{
    match answer {
        Ok(Some(entry)) => {
            *next = entry.next;
            *count = entry.letters;
            *found = 1;
            *place = 0;
            0
        }
        Ok(None) => {
            *found = 0;
            *place = 0;
            0
        }
        Err(why) => {
            *place = why.place();
            why.number()
        }
    }
}
