// One name: 64 bytes, 1 to 64 bytes from 33 to 126, then zeros.
ghost use Rattle.std.specs.Prelude.{◌≡◌};
ghost use Rattle.catalogue_spec.specs.Names.{visible, name_length, zeros_to, is_name};

fn is_visible(b: u8) -> bool
    ensures { result ≡ visible b }
{
    (33 <= b) & (b <= 126)
}

// How many bytes from 33 to 126 a record begins with: the length of its name.
pub fn name_length(name: &[u8]) -> usize
    ensures { result ≡ name_length name.now }
{
    for (i, b) in name.iter().enumerate() {
        if !is_visible(*b) {
            return i;
        }
    }
    name.len()
}

// The first place from `from` on where no zero stands, or the record's length.
fn zeros_to(name: &[u8], from: usize) -> usize
    ensures { result ≡ zeros_to name.now from }
{
    for i in from..name.len() {
        if name[i] != 0 {
            return i;
        }
    }
    name.len().max(from)
}

// Whether a record is a name.
pub fn is_name(name: &[u8]) -> bool
    ensures { result ≡ is_name name.now }
{
    let text = name_length(name);
    let zeros = zeros_to(name, text);
    (name.len() == 64) & (0 < text) & (zeros == 64)
}
