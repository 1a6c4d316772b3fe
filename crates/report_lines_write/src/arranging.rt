// The groups made ready to be sorted by their texts.
ghost use Rattle.report_lines_write.specs.Laid.{StretchesLaid};
ghost use Rattle.report_lines_write.specs.ReadyLaws.{TextsReady};

use crate::copying::copy;
use crate::marking::mark_lasts;

// Puts where groups begin to the front, and the entries, the last one of each group marked, behind the tag's keys, over the
// boundaries. Answers how many groups there are.
pub(crate) fn arrange(w: &mut [u32], c: usize, groups: usize) -> usize
    requires { StretchesLaid w.old c groups }
    ensures { TextsReady w.old c groups w.new result }
{
    let b = 2 * c + 16;
    let n = w[b + groups] as usize;
    let count = mark_lasts(w, c, groups);
    copy(w, 0, b, n);
    copy(w, c, 0, count);
    count
}
