// The ranges of an enzyme, by the way that suits it.
ghost use Rattle.std.specs.Prelude.{◌≡◌, ◌≤◌, length};
ghost use Rattle.enzyme_cuts.specs.Cutting.{knife};
ghost use Rattle.enzyme_tables.specs.Listed.{DigestsListed};
ghost use Rattle.enzyme_ways.specs.Ways.{everywhere, way};

use crate::ends::offer_end;
use enzyme_cuts::{Enzyme, Kind, Knife};
use enzyme_keep::Terms;
use letters::LetterSet;

// The enzyme that cuts everywhere.
fn without_set(enzyme: Enzyme) -> Enzyme
    ensures { result ≡ everywhere enzyme }
{
    let skip = enzyme.skip;
    let side = enzyme.side;
    Enzyme {
        kind: Kind::None,
        skip,
        side,
        semi: enzyme.semi,
    }
}

// What it cuts at.
fn knife_of(enzyme: Enzyme, cleave: LetterSet) -> Knife
    ensures { result ≡ knife cleave enzyme.skip enzyme.side }
{
    let skip = enzyme.skip;
    let side = enzyme.side;
    Knife { cleave, skip, side }
}

// Writes what is kept of the sites of an enzyme, with tables for as many letters; which table has which of the numbers stands at
// each function. An empty set means "none": said by a call of itself, for into a function that calls itself the compiler joins none
// that has large tables. So each way has its stack to itself at each size.
pub(crate) fn offer_all(
    letters: &[u8],
    enzyme: Enzyme,
    missed: u8,
    terms: Terms,
    out: &mut [u8],
) -> Option<usize>
    requires { (length letters.now ≤ 65536) × (missed ≤ 16) × (terms.maximum ≤ 65536) }
    ensures { DigestsListed letters.now terms (way enzyme missed terms.minimum terms.maximum letters.now) out.old result out.new }
{
    let n = letters.len();
    let kind = enzyme.kind;
    match kind {
        Kind::None => {
            if n <= 1024 {
                return enzyme_none::none_with::<1024, 1024, 1282>(letters, terms, out);
            }
            if n <= 8192 {
                return enzyme_none::none_with::<8192, 8736, 8736>(letters, terms, out);
            }
            enzyme_none::none_with::<65536, 66080, 66080>(letters, terms, out)
        }
        Kind::End => offer_end(letters, terms, out),
        Kind::Set(cleave) => {
            if cleave.mask == 0 {
                let none = without_set(enzyme);
                return offer_all(letters, none, missed, terms, out);
            }
            let knife = knife_of(enzyme, cleave);
            if enzyme.semi {
                if n <= 1024 {
                    return enzyme_halves::semi_with::<1025, 1024, 17576, 4096, 1024, 2048>(
                        letters, knife, missed, terms, out,
                    );
                }
                if n <= 8192 {
                    return enzyme_halves::semi_with::<8193, 8192, 131071, 32768, 2048, 4096>(
                        letters, knife, missed, terms, out,
                    );
                }
                return enzyme_halves::semi_with::<65537, 65536, 131071, 40960, 12288, 16384>(
                    letters, knife, missed, terms, out,
                );
            }
            if n <= 1024 {
                return enzyme_set::windows_with::<1025, 2048>(letters, knife, missed, terms, out);
            }
            if n <= 8192 {
                return enzyme_set::windows_with::<8193, 16384>(letters, knife, missed, terms, out);
            }
            enzyme_set::windows_with::<65537, 65536>(letters, knife, missed, terms, out)
        }
    }
}
