// Sets of letters.
ghost use Rattle.std.specs.Prelude.{◌≡◌};
ghost use Rattle.letters.specs.Letters.{all, empty, has, inserted, proper, subset};

use crate::stretch::capital;

// A number whose bit 0 is A and bit 25 is Z.
#[derive(Clone, Copy)]
pub struct LetterSet {
    pub mask: u32,
}

impl LetterSet {
    pub const EMPTY: LetterSet = LetterSet { mask: 0 };

    pub const ALL: LetterSet = LetterSet { mask: 0x03ff_ffff };

    // `EMPTY`, which holds none.
    pub fn no_letters() -> LetterSet
        ensures { result ≡ empty }
    {
        LetterSet::EMPTY
    }

    // `ALL`, which holds every letter.
    pub fn all_letters() -> LetterSet
        ensures { result ≡ all }
    {
        LetterSet::ALL
    }

    // Whether the letter is in the set: no byte but a letter is in any.
    // Document 02, [5]: "On our busiest node, asking whether a letter is in a set takes too long." A byte below A wraps to 191 or
    // more, so that one comparison leaves A to Z, a to z and the six bytes behind each of them; `% 32` lays the small letters over
    // the capitals, and those six bytes on bits above 25, which are cleared. Nothing branches.
    pub fn contains(self, letter: u8) -> bool
        ensures { result ≡ has self letter }
    {
        let k = letter.wrapping_sub(65);
        (k < 64) & (((self.mask % 0x0400_0000) >> (k % 32)) % 2 == 1)
    }

    // The set with the letter: any other byte changes nothing.
    pub fn insert(self, letter: u8) -> LetterSet
        ensures { result ≡ inserted self letter }
    {
        let b = capital(letter);
        if b < 65 {
            return self;
        }
        if 90 < b {
            return self;
        }
        let k = b - 65;
        LetterSet {
            mask: self.mask | (1u32 << k),
        }
    }

    // Whether no bit above 25 is set.
    pub fn is_proper(self) -> bool
        ensures { result ≡ proper self }
    {
        self.mask < 0x0400_0000
    }

    // Whether each letter of the set is one of the other.
    pub fn is_subset(self, other: LetterSet) -> bool
        ensures { result ≡ subset self other }
    {
        (self.mask & other.mask) % 0x0400_0000 == self.mask % 0x0400_0000
    }
}
