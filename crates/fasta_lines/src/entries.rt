// Where an entry ends.
ghost use Rattle.std.specs.Prelude.{◌≡◌, ◌≤◌, length};
ghost use Rattle.fasta_lines.specs.Lines.{entry_length};

// How many bytes stand before the next line that starts with `>`, or all. Hardly a byte is a `>`, so that it is asked for first.
pub fn entry_len(s: &[u8]) -> usize
    ensures { (result ≡ entry_length s.now) × (result ≤ length s.now) }
{
    for i in 1..s.len() {
        if s[i] == 62 && s[i - 1] == 10 {
            return i;
        }
    }
    s.len()
}
