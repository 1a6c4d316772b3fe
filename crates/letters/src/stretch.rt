// Letters, and stretches of them.
ghost use Rattle.std.specs.Prelude.{◌≡◌, true, length};
ghost use Rattle.lists.specs.Lists.{some};
ghost use Rattle.letters.specs.Letters.{is_capital, is_small, capital, capitals, is_letter, first_bad};

// A to Z.
pub fn is_capital(b: u8) -> bool
    ensures { result ≡ is_capital b }
{
    (65 <= b) & (b <= 90)
}

// a to z.
// Not one function with `is_capital`: two bounds as parameters would say less than the two names.
pub fn is_small(b: u8) -> bool
    ensures { result ≡ is_small b }
{
    (97 <= b) & (b <= 122)
}

// How a byte reads: a small letter as its capital, any other byte as it is.
pub fn capital(b: u8) -> u8
    ensures { result ≡ capital b }
{
    if is_small(b) { b - 32 } else { b }
}

// A to Z, or a to z. A small letter is its capital with bit 5 set: with that bit set in both, one comparison tells letters from all
// other bytes.
pub fn is_letter(b: u8) -> bool
    ensures { result ≡ is_letter b }
{
    (b | 32).wrapping_sub(97) < 26
}

// The index of the first byte that is no letter, or the length, sought byte by byte.
fn seek_bad(s: &[u8]) -> usize
    ensures { result ≡ first_bad s.now }
{
    for (i, b) in s.iter().enumerate() {
        if !is_letter(*b) {
            return i;
        }
    }
    s.len()
}

// Whether all bytes are letters. It looks at all: a loop that ends early costs more than one that goes over many bytes at a time.
fn all_good(s: &[u8]) -> bool
    ensures { result ≡ true → length s.now ≡ first_bad s.now }
{
    let mut good = true;
    for b in s {
        good = good & is_letter(*b);
    }
    good
}

// The index of the first byte that is no letter, or the length. Few bytes are sought at once; of many nearly always all are letters.
pub fn first_bad(s: &[u8]) -> usize
    ensures { result ≡ first_bad s.now }
{
    let n = s.len();
    if n < 64 {
        return seek_bad(s);
    }
    if all_good(s) { n } else { seek_bad(s) }
}

// Whether a letter is small. It looks at all, as `all_good` does.
pub fn has_small(s: &[u8]) -> bool
    ensures { result ≡ some is_small s.now }
{
    let mut found = false;
    for b in s {
        found = found | is_small(*b);
    }
    found
}

// Makes every small letter a capital.
pub fn raise_all(s: &mut [u8])
    ensures { s.new ≡ capitals s.old }
{
    for b in s.iter_mut() {
        *b = capital(*b);
    }
}
