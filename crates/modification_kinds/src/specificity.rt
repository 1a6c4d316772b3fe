// What a rule hits.
ghost use Rattle.std.specs.Prelude.{◌≡◌};
ghost use Rattle.modification_kinds.specs.Specificities.{kind_of, letter_of, sound, specificity};

// A kind with its letter, 0 for none. A residue always has a letter.
#[derive(Clone, Copy)]
pub enum Specificity {
    Residue(u8),
    PeptideN(u8),
    PeptideC(u8),
    ProteinN(u8),
    ProteinC(u8),
}

impl Specificity {
    // Document 01's number of the kind.
    pub fn kind(self) -> u8
        ensures { result ≡ kind_of self }
    {
        match self {
            Specificity::Residue(_) => 0,
            Specificity::PeptideN(_) => 1,
            Specificity::PeptideC(_) => 2,
            Specificity::ProteinN(_) => 3,
            Specificity::ProteinC(_) => 4,
        }
    }

    // The letter, or 0.
    pub fn letter(self) -> u8
        ensures { result ≡ letter_of self }
    {
        match self {
            Specificity::Residue(b)
            | Specificity::PeptideN(b)
            | Specificity::PeptideC(b)
            | Specificity::ProteinN(b)
            | Specificity::ProteinC(b) => b,
        }
    }
}

// Whether a rule may have the kind and the letter, which is a capital.
pub fn is_sound(kind: u8, letter: u8) -> bool
    ensures { result ≡ sound kind letter }
{
    (kind <= 4) & (letters::is_capital(letter) | ((letter == 0) & !(kind == 0)))
}

// The kind's number and the letter as a value; a number above 4 is read as 0.
pub fn specificity_of(kind: u8, letter: u8) -> Specificity
    ensures { result ≡ specificity kind letter }
{
    match kind {
        1 => Specificity::PeptideN(letter),
        2 => Specificity::PeptideC(letter),
        3 => Specificity::ProteinN(letter),
        4 => Specificity::ProteinC(letter),
        _ => Specificity::Residue(letter),
    }
}
