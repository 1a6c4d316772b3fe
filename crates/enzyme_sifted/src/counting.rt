// The codes of all sites, and how often each was seen.
ghost use Rattle.std.specs.Prelude.{◌≡◌, ℕ, ◌≤◌, ◌<◌, length};
ghost use Rattle.enzyme_keys.specs.Keys.{SiteWithin};
ghost use Rattle.enzyme_codes.specs.Codes.{code_at};
ghost use Rattle.enzyme_sifted.specs.Sifted.{one_more, raised, CodesSeen};

// One more, up to 2.
fn one_more(n: u8) -> u8
    ensures { result ≡ one_more n }
{
    if n < 2 { n + 1 } else { n }
}

// Counts a code; past the table's end nothing is written.
fn raise(seen: &mut [u8], code: u16)
    ensures { seen.new ≡ raised seen.old code }
{
    let i = usize::from(code);
    if i < seen.len() {
        seen[i] = one_more(seen[i]);
    }
}

// Writes the codes of m sites and counts them.
pub(crate) fn count(letters: &[u8], starts: &[u32], m: usize, codes: &mut [u16], seen: &mut [u8])
    requires { (m ≤ length codes.old) × ((z : ℕ) → z < m → SiteWithin letters.now starts.now z) }
    ensures { CodesSeen (code_at (length seen.old) letters.now starts.now) codes.new seen.new m }
{
    let size = seen.len();
    for z in 0..m {
        let code = enzyme_codes::code_at(letters, starts, z, size);
        codes[z] = code;
        raise(seen, code);
    }
}
