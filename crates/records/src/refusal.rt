// What a call says no with.
ghost use Rattle.std.specs.Prelude.{◌≡◌};
ghost use Rattle.records.specs.Refusals.{number_of, place_of};
ghost use Rattle.records.specs.Tested.{and_then, field_tested};

// One case for each number of document 01's table, and of document 02 from 14 on, its place where that is not always 0.
#[derive(Clone, Copy)]
pub enum Refusal {
    // 1: a size above its limit, or an empty peptide
    Size,
    // 2: a byte that is no letter, a letter of mass zero; in a rule text a byte of 128 or more
    Letter(usize),
    // 3: alphabet bits above 25, or a letter of a set outside the alphabet
    Alphabet,
    // 4: an empty rule text
    EmptyText,
    // 5: a letter of a rule text that is not in the alphabet
    Outside(usize),
    // 6: a rule text that is too long
    LongText,
    // 7: a 256th modification
    TableFull,
    // 8: a length that is not whole records, or not the stated count
    Length,
    // 9: a field out of range
    Field(usize),
    // 10: a work slice that is too short
    Work,
    // 11: no room
    Room,
    // 12: a bad name, or at place 0 a bad decoy tag
    Name(usize),
    // 13: a name equal to an earlier one
    Repeat(usize),
    // 14: in a file, a byte other than a line end before the first `>`
    Stray(usize),
}

impl Refusal {
    // Document 01's number.
    pub fn number(self) -> u32
        ensures { result ≡ number_of self }
    {
        match self {
            Refusal::Size => 1,
            Refusal::Letter(_) => 2,
            Refusal::Alphabet => 3,
            Refusal::EmptyText => 4,
            Refusal::Outside(_) => 5,
            Refusal::LongText => 6,
            Refusal::TableFull => 7,
            Refusal::Length => 8,
            Refusal::Field(_) => 9,
            Refusal::Work => 10,
            Refusal::Room => 11,
            Refusal::Name(_) => 12,
            Refusal::Repeat(_) => 13,
            Refusal::Stray(_) => 14,
        }
    }

    // Document 01's place.
    pub fn place(self) -> usize
        ensures { result ≡ place_of self }
    {
        match self {
            Refusal::Letter(at)
            | Refusal::Outside(at)
            | Refusal::Field(at)
            | Refusal::Name(at)
            | Refusal::Repeat(at)
            | Refusal::Stray(at) => at,
            Refusal::Size
            | Refusal::Alphabet
            | Refusal::EmptyText
            | Refusal::LongText
            | Refusal::TableFull
            | Refusal::Length
            | Refusal::Work
            | Refusal::Room => 0,
        }
    }
}

// What a test found, or where it passed what the next one found.
pub fn and_then(first: Result<(), Refusal>, next: Result<(), Refusal>) -> Result<(), Refusal>
    ensures { result ≡ and_then first next }
{
    first?;
    next
}

// What the first bad field of so many says: its place, or nothing where it is the count.
pub fn field_tested(bad: usize, count: usize) -> Result<(), Refusal>
    ensures { result ≡ field_tested bad count }
{
    if bad < count {
        return Err(Refusal::Field(bad));
    }
    Ok(())
}
