// What reading answers.
ghost use Rattle.std.specs.Prelude.{◌≡◌};
ghost use Rattle.fasta.specs.declared.entry.Fault.TheVariants.{Refused};
ghost use Rattle.fasta.specs.Entries.{fault_number, fault_place, read_number, read_place};

use records::Refusal;

// An entry that was found: the place behind it, and how many letters it has.
#[derive(Clone, Copy)]
pub struct Entry {
    pub next: usize,
    pub letters: u32,
}

// Why an entry was not read.
#[derive(Clone, Copy)]
pub enum Fault {
    // 1: more than 65,536 letters. The place of the entry's `>` goes with it, where `Refusal::Size` has none.
    Long(usize),
    Refused(Refusal),
}

impl Fault {
    // The refusal's number.
    pub fn number(self) -> u32
        ensures { result ≡ fault_number self }
    {
        match self {
            Fault::Long(_) => 1,
            Fault::Refused(why) => why.number(),
        }
    }

    // The refusal's place, or 0.
    pub fn place(self) -> usize
        ensures { result ≡ fault_place self }
    {
        match self {
            Fault::Long(at) => at,
            Fault::Refused(why) => why.place(),
        }
    }
}

impl From<Refusal> for Fault {
    ghost from_gives = { λ why fault. fault ≡ Refused why };

    fn from(why: Refusal) -> Fault {
        Fault::Refused(why)
    }
}

// The refusal's number, or 0.
pub fn number_of(answer: Result<Option<Entry>, Fault>) -> u32
    ensures { result ≡ read_number answer }
{
    match answer {
        Ok(_) => 0,
        Err(why) => why.number(),
    }
}

// The refusal's place, or 0.
pub fn place_of(answer: Result<Option<Entry>, Fault>) -> usize
    ensures { result ≡ read_place answer }
{
    match answer {
        Ok(_) => 0,
        Err(why) => why.place(),
    }
}
