// Sets of letters.
ghost use Rattle.std.specs.Prelude.{◌≡◌, cond};
ghost use Rattle.letters.specs.Letters.{has, inserted};
ghost use Rattle.sendumaal_calls.specs.Calls.{set_of};

use letters::LetterSet;

pub fn sendumaal_set_insert(set: u32, letter: u8) -> u32
    ensures { result ≡ (inserted (set_of set) letter).mask }
{
    LetterSet { mask: set }.insert(letter).mask
}

pub fn sendumaal_set_contains(set: u32, letter: u8) -> u32
    ensures { result ≡ cond (has (set_of set) letter) 1 0 }
{
    u32::from(LetterSet { mask: set }.contains(letter))
}
