// Bytes of any length as an array, and an array as capitals.
ghost use Rattle.std.specs.Prelude.{◌≡◌, ◌≤◌};
ghost use Rattle.letters.specs.Letters.{capitals};
ghost use Rattle.peptide_slots.specs.Windows.{window};

// The 64 bytes from a place on; past the end stands 0.
pub fn window(bytes: &[u8], from: usize) -> [u8; 64]
    requires { from ≤ 2 }
    ensures { result ≡ window 64 from bytes.now }
{
    let mut out = [0u8; 64];
    for i in 0..64 {
        out[i] = records::byte_at(bytes, from + i);
    }
    out
}

// An array of letters as capitals.
pub fn raised(xs: [u8; 64]) -> [u8; 64]
    ensures { result ≡ capitals xs }
{
    let mut out = xs;
    letters::raise_all(&mut out);
    out
}
