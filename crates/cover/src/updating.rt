// The update as a call.
ghost use Rattle.std.specs.Prelude.{◌≡◌, [], ◌∷◌, min, length, replicate};
ghost use Rattle.cover_tests.specs.ReadyLaws.{UpdateReady};
ghost use Rattle.records.specs.Outcome.{outcome};
ghost use Rattle.cover_spec.specs.Marks.{handed};
ghost use Rattle.cover_edges.specs.Edges.{edges_of};
ghost use Rattle.cover_touched.specs.Touching.{Mixed};
ghost use Rattle.cover.specs.Updating.{update_marks, update_outcome};

use crate::covering::cover_passed;
use cover_edges::Edges;
use cover_tests::update_tested;
use cover_touched::renew;
use records::{Refusal, clear};

// Groups that are not touched get the marks given, as far as there is room.
fn keep_given(
    old: &[u8],
    new: &[u8],
    groups: usize,
    metas: usize,
    given: &[u8],
    work: &mut [u32],
    marks: &mut [u8],
)
    requires { UpdateReady old.now new.now groups metas given.now (length work.old) }
    ensures mixed { Mixed (edges_of old.now) (edges_of new.now) given.now (min groups (length marks.old)) marks.old marks.new }
    ensures work_after { work.new ≡ replicate (length work.old) 0 }
{
    let before = Edges::of(old);
    let after = Edges::of(new);
    let k = groups.min(marks.len());
    if k == 0 {
        clear(work);
        return;
    }
    renew(&before, &after, groups, metas, given, k, marks, work);
}

// The update of marks and edges that are in order: the cover of the new edges, and then the marks given where nothing is touched.
fn update_passed(
    old: &[u8],
    new: &[u8],
    groups: usize,
    metas: usize,
    given: &[u8],
    work: &mut [u32],
    marks: &mut [u8],
) -> Result<u32, Refusal>
    requires { UpdateReady old.now new.now groups metas given.now (length work.old) }
    ensures { outcome result (work.new ∷ marks.new ∷ []) ≡ handed work.old marks.old (update_marks old.now new.now groups given.now) }
{
    let answer = cover_passed(new, groups, metas, work, marks);
    keep_given(old, new, groups, metas, given, work, marks);
    answer
}

// Writes a mark for each group into marks: that of the new edges' cover where the group's part, of both lists joined, has an edge that
// stands a different number of times in the two, else the one given.
pub fn update(
    old: &[u8],
    new: &[u8],
    groups: u32,
    metas: u32,
    given: &[u8],
    work: &mut [u32],
    marks: &mut [u8],
) -> Result<u32, Refusal>
    ensures { outcome result (work.new ∷ marks.new ∷ []) ≡ update_outcome old.now new.now groups metas given.now work.old marks.old }
{
    let left = groups as usize;
    let right = metas as usize;
    update_tested(old, new, left, right, given, work.len())?;
    update_passed(old, new, left, right, given, work, marks)
}
