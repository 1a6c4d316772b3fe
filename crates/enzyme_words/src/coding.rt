// Words as numbers of base 26.
ghost use Rattle.std.specs.Prelude.{◌≡◌, ◌-◌, ◌%◌, ◌^◌, ◌≤◌, ◌<◌, min, length};
ghost use Rattle.enzyme_words.specs.Words.{digit_of, word_at};

// A letter as a number below 26; other bytes need not be told apart.
pub(crate) fn digit(x: u8) -> u64
    ensures { result ≡ digit_of x }
{
    if x < 65 {
        return 0;
    }
    if 90 < x {
        return 25;
    }
    u64::from(x - 65)
}

pub(crate) fn power(k: usize) -> u64
    requires { k ≤ 12 }
    ensures { result ≡ 26 ^ k }
{
    26u64.pow(k as u32)
}

// The number of the first k letters.
pub(crate) fn first(letters: &[u8], k: usize) -> u64
    requires { (k ≤ 12) × (k ≤ length letters.now) }
    ensures { result ≡ word_at letters.now 0 k }
{
    let mut w = 0;
    for i in 0..k {
        w = 26 * w + digit(letters[i]);
    }
    w
}

// A word's place in a table of m. Both sizes in use are named, since dividing by a number that is known is quicker: all words of
// three letters, and a prime, so that each letter of a longer word tells.
pub(crate) fn place(w: u64, m: usize) -> usize
    requires { 0 < m }
    ensures { result ≡ w % m }
{
    if m == 17576 {
        return (w % 17576) as usize;
    }
    if m == 131071 {
        return (w % 131071) as usize;
    }
    let size = m as u64;
    (w % size) as usize
}
