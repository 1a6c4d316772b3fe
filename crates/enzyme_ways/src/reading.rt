// Letters that are read as capitals: as they are lent where none is small, else from a copy.
ghost use Rattle.std.specs.Prelude.{◌≡◌, ◌≤◌, length, take};
ghost use Rattle.letters.specs.Letters.{capitals};
ghost use Rattle.enzyme_ways.specs.Ways.{DigestsRead};

use crate::ways::offer_all;
use enzyme_cuts::Enzyme;
use enzyme_keep::Terms;

// Copies letters as capitals to the front of a table.
fn copy_raised(letters: &[u8], table: &mut [u8])
    requires { length letters.now ≤ length table.old }
    ensures { take (length letters.now) table.new ≡ capitals letters.now }
{
    for i in 0..letters.len() {
        table[i] = letters::capital(letters[i]);
    }
}

// With a table that is lent.
fn offer_over(
    letters: &[u8],
    enzyme: Enzyme,
    missed: u8,
    terms: Terms,
    out: &mut [u8],
    table: &mut [u8],
) -> Option<usize>
    requires { (length letters.now ≤ 65536) × (missed ≤ 16) × (terms.maximum ≤ 65536) × (length letters.now ≤ length table.old) }
    ensures { DigestsRead letters.now enzyme missed terms out.old result out.new }
{
    let n = letters.len();
    copy_raised(letters, table);
    offer_all(&table[0..n], enzyme, missed, terms, out)
}

// The same with a table on the stack.
fn raised_with<const LETTERS: usize>(
    letters: &[u8],
    enzyme: Enzyme,
    missed: u8,
    terms: Terms,
    out: &mut [u8],
) -> Option<usize>
    requires { (length letters.now ≤ LETTERS) × (LETTERS ≤ 65536) × (missed ≤ 16) × (terms.maximum ≤ 65536) }
    ensures { DigestsRead letters.now enzyme missed terms out.old result out.new }
{
    let mut table = [0u8; LETTERS];
    offer_over(letters, enzyme, missed, terms, out, &mut table)
}

// With a table for 1,024, 8,192 or 65,536 letters. It goes from one size to the next by a call of itself: so each table has its stack
// to itself, and calls with capitals have none of it (see `offer_all`).
fn offer_raised(
    room: usize,
    letters: &[u8],
    enzyme: Enzyme,
    missed: u8,
    terms: Terms,
    out: &mut [u8],
) -> Option<usize>
    requires { (length letters.now ≤ 65536) × (missed ≤ 16) × (terms.maximum ≤ 65536) × (1 ≤ room) × (room ≤ 524288) }
    ensures { DigestsRead letters.now enzyme missed terms out.old result out.new }
{
    if room < letters.len() {
        return offer_raised(8 * room, letters, enzyme, missed, terms, out);
    }
    if room <= 1024 {
        return raised_with::<1024>(letters, enzyme, missed, terms, out);
    }
    if room <= 8192 {
        return raised_with::<8192>(letters, enzyme, missed, terms, out);
    }
    raised_with::<65536>(letters, enzyme, missed, terms, out)
}

// Writes what is kept of the sites of an enzyme in letters that are read as capitals.
pub fn offer_read(
    letters: &[u8],
    enzyme: Enzyme,
    missed: u8,
    terms: Terms,
    out: &mut [u8],
) -> Option<usize>
    requires { (length letters.now ≤ 65536) × (missed ≤ 16) × (terms.maximum ≤ 65536) }
    ensures { DigestsRead letters.now enzyme missed terms out.old result out.new }
{
    if letters::has_small(letters) {
        return offer_raised(1024, letters, enzyme, missed, terms, out);
    }
    offer_all(letters, enzyme, missed, terms, out)
}
