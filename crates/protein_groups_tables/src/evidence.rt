// The evidence of peptides.
ghost use Rattle.protein_groups_tables.specs.EvidenceLaws.{Peptides, Evident};

use crate::keyed::sort_values;
use protein_groups_numbering::Plan;
use records::wide;
use sorting_texts::By;

// Of the plan's values, each below k, and their keys: the evidence of each key, numbered by first appearance and sorted, as its text. Answers
// how many values there are; they stand from w[0] on.
pub(crate) fn evidences(w: &mut [u32], k: usize, plan: Plan) -> u32
    requires { Peptides w.old k plan }
    ensures { Evident w.old w.new k plan result }
{
    let size = wide(plan.kinds);
    let n = plan.count;
    let l = plan.texts;
    let a = plan.keys;
    sort_values(w, plan);
    let found = protein_groups_numbering::number_all(w, 0, k, k, l, n);
    sorting::sort_each(By::Itself, b"", w, plan.bounds, size, l, a, a + n);
    found
}
