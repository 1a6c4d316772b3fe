// Enzymes by value.
use letters::LetterSet;

// The side of a letter on which it cuts.
#[derive(Clone, Copy)]
pub enum Side {
    C,
    N,
}

// What an enzyme cuts at: nothing, the end alone, or a set of letters.
#[derive(Clone, Copy)]
pub enum Kind {
    None,
    End,
    Set(LetterSet),
}

#[derive(Clone, Copy)]
pub struct Enzyme {
    pub kind: Kind,
    pub skip: LetterSet,
    pub side: Side,
    pub semi: bool,
}

// A set of letters that cuts on a side, but not before a letter of the set skip.
#[derive(Clone, Copy)]
pub struct Knife {
    pub cleave: LetterSet,
    pub skip: LetterSet,
    pub side: Side,
}
