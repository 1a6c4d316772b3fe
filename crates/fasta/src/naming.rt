// The name of an entry.
ghost use Rattle.std.specs.Prelude.{◌≡◌, [], ◌∷◌, ◌≤◌, length};
ghost use Rattle.std.proofs.lemmas.List.Edits.{sets};
ghost use Rattle.records.specs.Room.{fitted};
ghost use Rattle.catalogue_spec.specs.Names.{padded};
ghost use Rattle.fasta.specs.Entries.{good_name};

use catalogue_name::name_length;

// Whether a text is a name: 1 to 64 bytes from 33 to 126.
pub(crate) fn is_good_name(text: &[u8]) -> bool
    ensures { result ≡ good_name text.now }
{
    if 64 < text.len() {
        return false;
    }
    let visible = name_length(text);
    (0 < text.len()) & (visible == text.len())
}

// Stores a text and zeros behind it, 64 bytes in all.
fn put_record(text: &[u8], out: &mut [u8])
    requires { (length text.now ≤ 64) × (64 ≤ length out.old) }
    ensures { out.new ≡ sets out.old 0 (padded text.now) }
{
    let n = text.len();
    // No copy_from_slice: in C's archive it is a call of memmove, which the archive needs nowhere else.
    for i in 0..n {
        out[i] = text[i];
    }
    out[n..64].fill(0);
}

// Stores a name as a record, where there is room for one.
pub(crate) fn put_name(text: &[u8], out: &mut [u8])
    requires { length text.now ≤ 64 }
    ensures { out.new ≡ fitted 64 1 out.old (padded text.now ∷ []) }
{
    if 64 <= out.len() {
        put_record(text, out);
    }
}
