// The number that orders digests before their letters are looked at.
ghost use Rattle.std.specs.Prelude.{◌≡◌, ◌+◌, ◌-◌, ◌*◌, ◌≤◌, get_or};
ghost use Rattle.letters.specs.Reversal.{letters_of};
ghost use Rattle.digest_groups_words.specs.Word.{packed};
ghost use Rattle.digest_groups_words.specs.WordLaws.{Spelt};

fn digit(letter: u8) -> u64
    ensures { (result ≡ letter - 64) × (result ≤ 191) }
{
    u64::from(letter.saturating_sub(64))
}

// One letter more.
fn next(h: u64, part: &[u8], decoy: bool, i: usize) -> u64
    requires { h ≤ 1099511627776 }
    ensures { (result ≡ h * 27 + (get_or (letters_of decoy part.now) i 0 - 64)) × (result ≤ h * 27 + 191) }
{
    let letter = letters::letter_at(part, decoy, i);
    let d = digit(letter);
    h * 27 + d
}

// The first six letters behind what stands in front.
pub(crate) fn word(part: &[u8], decoy: bool, front: u64) -> u32
    requires { (front ≤ 7) × Spelt (letters_of decoy part.now) }
    ensures { result ≡ packed front 6 (letters_of decoy part.now) }
{
    let mut h = front;
    for i in 0..6 {
        h = next(h, part, decoy, i);
    }
    h as u32
}
