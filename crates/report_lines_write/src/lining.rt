// The line of the groups that stand as stretches in a slice.
ghost use Rattle.std.specs.Prelude.{◌≡◌, length};
ghost use Rattle.records.specs.Room.{fitted, singly};
ghost use Rattle.report_lines_write.specs.Laid.{line_in, count_in, StretchesLaid};
ghost use Rattle.report_lines_write.specs.OrderLaws.{LineOrdered};

use crate::arranging::arrange;
use report_lines_texts::{Line, write_line};
use sorting_texts::By;

// Puts where the groups begin to the front, in the order of their texts. Answers how many there are.
fn order(names: &[u8], w: &mut [u32], c: usize, groups: usize) -> usize
    requires { StretchesLaid w.old c groups }
    ensures { LineOrdered names.now w.old c groups w.new result }
{
    let count = arrange(w, c, groups);
    sorting_slices::sort(By::Joined, names, w, 0, count, c, 2 * c);
    count
}

// Writes the texts of the groups that have an entry, sorted and joined by `;`, where there is room for them, and counts these groups.
// Areas of w have c numbers; what stands in w is used up.
pub fn line_in(names: &[u8], w: &mut [u32], c: usize, groups: usize, out: &mut [u8]) -> Line
    requires { StretchesLaid w.old c groups }
    ensures { (out.new ≡ fitted 1 (length out.old) out.old (singly (line_in names.now w.old c groups))) × (result.bytes ≡ length (line_in names.now w.old c groups)) × (result.groups ≡ count_in w.old c groups) }
{
    let count = order(names, w, c, groups);
    let keys = 2 * c;
    write_line(names, &w[0..count], &w[keys..], out)
}
