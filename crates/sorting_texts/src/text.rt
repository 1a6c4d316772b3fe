// What numbers stand for, and where it stands.
ghost use Rattle.std.specs.Prelude.{◌≡◌, ◌+◌, ◌*◌, ◌/◌, ◌%◌, eqb, get_or};
ghost use Rattle.std.proofs.Math.Seq.{slice};
ghost use Rattle.sorting_spec.specs.Joined.{name_of};
ghost use Rattle.sorting_texts.specs.Text.{list_among};

// What numbers are sorted by: each stands for a list of numbers, its text. An enum and no closure: the orders are data that travel with the
// table, and theorems speak of `text_by by`.
#[derive(Clone, Copy)]
pub enum By {
    // itself
    Itself,
    // the number that it has among the keys
    Number,
    // the list that it has among the keys: the boundaries stand first, and the lists from this place on
    Numbers(u32),
    // the 64 bytes of the name that it has among the letters
    Name,
    // a word, and then the letters of a range, a decoy's reversed, by three tables of so many among the keys: the words, where the
    // ranges begin, and twice their lengths, one more for a decoy
    Spelled(u32),
    // the text of the entry that it is: four times the number of a name, whose bytes end at a zero; two more where the tag, the first 16
    // keys up to a zero, stands before it; one more where it is the last of its group
    Tagged,
    // the texts of the entries from its place behind the tag on, up to the last of the group, joined by `/`
    Joined,
}

// Why a call says no: the lent slice does not hold what is asked.
#[derive(Clone, Copy)]
pub struct Unfit;

// A part of the letters, and whether it is a decoy's.
#[derive(Clone, Copy)]
pub struct Range<'a> {
    pub letters: &'a [u8],
    pub decoy: bool,
}

// The number at a place; past the end 0.
pub fn number_at(keys: &[u32], i: usize) -> u32
    ensures { result ≡ get_or keys.now i 0 }
{
    keys.get(i).copied().unwrap_or(0)
}

// The part from..to, as far as there is one.
fn part<T: Copy>(items: &[T], from: usize, to: usize) -> &[T]
    ensures { result.now ≡ slice from to items.now }
{
    let front = &items[..to.min(items.len())];
    &front[from.min(front.len())..]
}

// x's list among the keys.
pub fn list_of(keys: &[u32], base: u32, x: u32) -> &[u32]
    ensures { result.now ≡ list_among base keys.now x }
{
    let lists = base as usize;
    let i = x as usize;
    let from = lists + number_at(keys, i) as usize;
    let to = lists + number_at(keys, i + 1) as usize;
    part(keys, from, to)
}

// x's name among the letters.
pub fn name_of(letters: &[u8], x: u32) -> &[u8]
    ensures { result.now ≡ name_of letters.now x }
{
    let from = x as usize * 64;
    part(letters, from, from + 64)
}

// x's letters among the letters.
pub fn range_of<'a>(letters: &'a [u8], keys: &[u32], n: u32, x: u32) -> Range<'a>
    ensures { (result.decoy ≡ eqb (get_or keys.now (2 * n + x) 0 % 2) 1) × (result.letters.now ≡ slice (get_or keys.now (n + x) 0) (get_or keys.now (n + x) 0 + get_or keys.now (2 * n + x) 0 / 2) letters.now) }
{
    let i = x as usize;
    let k = n as usize;
    let from = number_at(keys, k + i) as usize;
    let third = number_at(keys, 2 * k + i) as usize;
    Range {
        letters: part(letters, from, from + third / 2),
        decoy: third % 2 == 1,
    }
}
