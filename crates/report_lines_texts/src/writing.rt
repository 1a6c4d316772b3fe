// The line written byte by byte, where there is room, its bytes and its groups counted.
ghost use Rattle.std.specs.Prelude.{◌≡◌, ◌∷◌, ℕ, ◌+◌, ◌<◌, length, get_or};
ghost use Rattle.std.proofs.lemmas.List.Edits.{sets};
ghost use Rattle.sorting_texts.specs.Text.{tag_in, joined_text};
ghost use Rattle.report_lines_texts.specs.WriteLaws.{texts_of, Put, after_from};

// How many bytes the line has, and how many groups it names.
// Not `Report` of report_lines, which has the same fields: that is the answer that the C face and its specs speak of.
#[derive(Clone, Copy)]
pub struct Line {
    pub bytes: u32,
    pub groups: u32,
}

fn byte_of(number: u32) -> u8
    requires { number < 256 }
    ensures { result ≡ number }
{
    number as u8
}

// The names and the keys that texts are made of: a tag, up to a zero, and then the entries of the groups.
#[derive(Clone, Copy)]
struct Texts<'a> {
    names: &'a [u8],
    keys: &'a [u32],
    tag: usize,
    ghost name_bytes: { (i : ℕ) → get_or names.now i 0 < 256 },
    ghost tag_length: { tag ≡ length (tag_in keys.now) },
    ghost tag_bytes: { (i : ℕ) → i < 16 → get_or keys.now i 0 < 256 },
}

impl<'a> Texts<'a> {
    // The text of the group that begins at x among the keys, from `at` on. Answers where it ends, room or not.
    fn write_text(&self, x: u32, out: &mut [u8], at: usize) -> usize
        requires { at + length (joined_text self.now.names.now self.now.keys.now x) < 4294967296 }
        ensures { Put out.old at (joined_text self.now.names.now self.now.keys.now x) out.new result }
    {
        let mut entry = 16 + x as usize;
        let mut i = 0;
        let mut k = at;
        // No `for`: each turn goes to where the walk goes on, up to a zero.
        loop {
            let step = sorting_texts::walk(self.names, self.keys, self.tag, entry, i);
            let number = step.number;
            if number == 0 {
                return k;
            }
            let byte = byte_of(number);
            records::put_byte(out, k, byte);
            k += 1;
            entry = step.at;
            i = step.i;
        }
    }

    // A `;`, and then the text of a group.
    fn write_next(&self, x: u32, out: &mut [u8], at: usize) -> usize
        requires { at + length (joined_text self.now.names.now self.now.keys.now x) + 1 < 4294967296 }
        ensures { Put out.old at (59 ∷ joined_text self.now.names.now self.now.keys.now x) out.new result }
    {
        records::put_byte(out, at, b';');
        self.write_text(x, out, at + 1)
    }

    // The texts of all groups but the first, each behind a `;`.
    fn write_rest(&self, starts: &[u32], out: &mut [u8], at: usize) -> usize
        requires { at + length (after_from (joined_text self.now.names.now self.now.keys.now) starts.now 1) < 4294967296 }
        ensures { Put out.old at (after_from (joined_text self.now.names.now self.now.keys.now) starts.now 1) out.new result }
    {
        let mut k = at;
        for i in 1..starts.len() {
            k = self.write_next(starts[i], out, k);
        }
        k
    }
}

// The texts of the groups that begin at these places among the keys, joined by `;`: a start is a group.
pub fn write_line(names: &[u8], starts: &[u32], keys: &[u32], out: &mut [u8]) -> Line
    requires { ((i : ℕ) → i < 16 → get_or keys.now i 0 < 256) × (length (texts_of names.now keys.now starts.now) < 4294967296) × (length starts.now < 4294967296) }
    ensures { (out.new ≡ sets out.old 0 (texts_of names.now keys.now starts.now)) × (result.bytes ≡ length (texts_of names.now keys.now starts.now)) × (result.groups ≡ length starts.now) }
{
    if starts.len() == 0 {
        return Line {
            bytes: 0,
            groups: 0,
        };
    }
    let tag = sorting_texts::tag_length(keys);
    let texts = Texts { names, keys, tag };
    let first = texts.write_text(starts[0], out, 0);
    let end = texts.write_rest(starts, out, first);
    let bytes = end as u32;
    let groups = starts.len() as u32;
    Line { bytes, groups }
}
