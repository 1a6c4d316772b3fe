// The code of a site: a number made of its letters alone, so that sites of the same letters have one code.
ghost use Rattle.std.specs.Prelude.{◌≡◌};
ghost use Rattle.enzyme_keys.specs.Keys.{SiteWithin};
ghost use Rattle.enzyme_codes.specs.Codes.{last_four, mixed, folded, code_of, code_at};

// The last four letters as a number; 0 where there are no more than four.
fn last_four(site: &[u8]) -> u32
    ensures { result ≡ last_four site.now }
{
    let n = site.len();
    if 4 < n {
        records::u32_at(site, n - 4)
    } else {
        0
    }
}

// The first letters, the last ones and how many there are, in one number. The factors are odd, and so small that the sum fits.
fn mix(first: u32, last: u32, n: usize) -> u64
    ensures { result ≡ mixed first last n }
{
    let count = (n % 65536) as u64;
    u64::from(first) * 1640531527 + u64::from(last) * 1597334677 + count * 3266489917
}

// Fewer codes for a smaller table.
fn fold(code: u16, size: usize) -> u16
    ensures { result ≡ folded size code }
{
    if size < 16384 {
        return code / 32;
    }
    if size < 65536 { code / 4 } else { code }
}

// The code of a site, for a table of a size: 16 bits in the middle, which all letters reach.
fn code_of(site: &[u8], size: usize) -> u16
    ensures { result ≡ code_of size site.now }
{
    let first = records::u32_at(site, 0);
    let last = last_four(site);
    let mixed = mix(first, last, site.len());
    let code = (mixed / 1048576 % 65536) as u16;
    fold(code, size)
}

// That of site z.
pub fn code_at(letters: &[u8], starts: &[u32], z: usize, size: usize) -> u16
    requires { SiteWithin letters.now starts.now z }
    ensures { result ≡ code_at size letters.now starts.now z }
{
    let a = starts[z] as usize;
    let e = starts[z + 1] as usize;
    code_of(&letters[a..e], size)
}
