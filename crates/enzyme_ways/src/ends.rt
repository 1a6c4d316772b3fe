// "End": the whole protein, which occurs once.
ghost use Rattle.std.specs.Prelude.{[], ◌∷◌, ◌≤◌, length};
ghost use Rattle.enzyme_cuts.specs.Cutting.{site};
ghost use Rattle.enzyme_tables.specs.Listed.{DigestsListed};

use enzyme_keep::Terms;

pub(crate) fn offer_end(letters: &[u8], terms: Terms, out: &mut [u8]) -> Option<usize>
    requires { length letters.now ≤ 65536 }
    ensures { DigestsListed letters.now terms (site 0 (length letters.now) ∷ []) out.old result out.new }
{
    let n = letters.len();
    let wanted = enzyme_keep::length_within(n, terms.minimum, terms.maximum);
    enzyme_keep::write_range(wanted, 0, n, 0, 0, n, terms.protein, 1, out, 0)
}
