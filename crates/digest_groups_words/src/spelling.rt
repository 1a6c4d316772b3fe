// What each digest is sorted by, in tables of the work memory: its number, its word, where its letters begin, and how many
// they are with its decoy flag.
ghost use Rattle.std.specs.Prelude.{◌≡◌, ◌+◌, ◌-◌, ◌*◌, ◌≤◌, ◌<◌, length, get_or, set};
ghost use Rattle.digest_groups_words.specs.Tables.{GoodDigests, DigestInside, digest_spelling, DigestTables};

use crate::words::word;

// A digest's word, where its letters begin in the book, and twice how many they are with its decoy flag.
#[derive(Clone, Copy)]
pub struct Spelling {
    pub word: u32,
    pub from: u32,
    pub size: u32,
}

// Where a digest's letters begin in the book.
fn place(bounds: &[u32], protein: u32, start: u32) -> usize
    ensures { result ≡ get_or bounds.now protein 0 + start }
{
    let first = sorting_texts::number_at(bounds, protein as usize);
    first as usize + start as usize
}

fn front(position: u8, decoy: u8) -> u64
    ensures { result ≡ position * 2 + decoy }
{
    u64::from(position) * 2 + u64::from(decoy)
}

fn size(start: u32, end: u32, decoy: u8) -> u32
    requires { (start ≤ end) × (end ≤ 268435456) }
    ensures { result ≡ 2 * (end - start) + decoy }
{
    2 * (end - start) + u32::from(decoy)
}

// What a digest's 20 bytes are sorted by.
fn spelled(letters: &[u8], bounds: &[u32], digest: &[u8]) -> Spelling
    requires { DigestInside bounds.now letters.now digest.now }
    ensures { result ≡ digest_spelling bounds.now letters.now digest.now }
{
    let start = records::u32_at(digest, 0);
    let end = records::u32_at(digest, 4);
    let decoy = records::byte_at(digest, 11);
    let from = place(bounds, records::u32_at(digest, 12), start);
    let to = from + (end - start) as usize;
    let before = front(records::byte_at(digest, 10), decoy);
    let word = word(&letters[from..to], decoy == 1, before);
    let size = size(start, end, decoy);
    Spelling {
        word,
        from: from as u32,
        size,
    }
}

// Writes the tables' numbers of digest i of n.
fn put_spelling(w: &mut [u32], n: usize, i: usize, s: Spelling)
    requires { (n ≤ 1048576) × (i < n) × (5 * n ≤ length w.old) }
    ensures { w.new ≡ set (set (set (set w.old i i) (2 * n + i) s.word) (3 * n + i) s.from) (4 * n + i) s.size }
{
    w[i] = i as u32;
    w[2 * n + i] = s.word;
    w[3 * n + i] = s.from;
    w[4 * n + i] = s.size;
}

// Writes the tables of all n digests.
pub fn spell_all(letters: &[u8], bounds: &[u32], digests: &[u8], w: &mut [u32], n: usize)
    requires { GoodDigests bounds.now letters.now digests.now n × (5 * n ≤ length w.old) }
    ensures { DigestTables bounds.now letters.now digests.now n n w.new }
{
    for i in 0..n {
        let at = 20 * i;
        let s = spelled(letters, bounds, &digests[at..at + 20]);
        put_spelling(w, n, i, s);
    }
}
