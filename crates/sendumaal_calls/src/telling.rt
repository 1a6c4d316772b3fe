// How an answer is told: the number returned, the place and the count written.
ghost use Rattle.std.specs.Prelude.{◌≡◌, List, [], ◌∷◌};
ghost use Rattle.records.specs.Outcome.{outcome};
ghost use Rattle.sendumaal_calls.specs.Calls.{refused, test_call, count_call};

use records::Refusal;

// The number and the place of a refusal.
pub fn refused(why: Refusal, place: &mut usize) -> u32
    ensures { outcome result ((place.new ∷ []) ∷ []) ≡ refused why [] }
{
    *place = why.place();
    why.number()
}

// The number and the place of an answer; what is answered is told by who asked.
pub fn told<T: Copy>(found: Result<T, Refusal>, place: &mut usize) -> u32
    ensures { outcome result ((place.new ∷ []) ∷ []) ≡ test_call found }
{
    match found {
        Ok(_) => {
            *place = 0;
            0
        }
        Err(why) => refused(why, place),
    }
}

// The same of a list that was written, with how many records it has.
pub fn counted(answer: Result<u32, Refusal>, count: &mut u32, place: &mut usize) -> u32
    ensures { outcome result ((place.new ∷ []) ∷ (count.new ∷ []) ∷ []) ≡ count_call answer count.old }
{
    if let Ok(n) = answer {
        *count = n;
    }
    told(answer, place)
}
