// Lent memory: numbers and bytes stored, work memory cleared.
ghost use Rattle.std.specs.Prelude.{◌≡◌, length, replicate};
ghost use Rattle.std.proofs.lemmas.List.Edits.{sets};

// Writes 0 everywhere: work memory is all zeros after acceptance or "no room".
pub fn clear(w: &mut [u32])
    ensures { w.new ≡ replicate (length w.old) 0 }
{
    w.fill(0);
}

// Stores items from a place on, and nothing else: what is written past the end is lost.
pub fn put_at<T: Copy>(out: &mut [T], at: usize, items: &[T])
    ensures { out.new ≡ sets out.old at items.now }
{
    if at < out.len() {
        let n = items.len().min(out.len() - at);
        out[at..at + n].copy_from_slice(&items[..n]);
    }
}
