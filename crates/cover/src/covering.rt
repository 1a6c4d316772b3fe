// The cover as a call.
ghost use Rattle.std.specs.Prelude.{◌≡◌, [], ◌∷◌, length};
ghost use Rattle.cover_tests.specs.ReadyLaws.{CoverReady};
ghost use Rattle.records.specs.Outcome.{outcome};
ghost use Rattle.cover_spec.specs.Marks.{handed};
ghost use Rattle.cover.specs.Covering.{cover_marks, cover_outcome};

use crate::handing::{cover_all, cover_short};
use cover_edges::Edges;
use cover_tests::cover_tested;
use records::{Refusal, clear};

// The cover of edges that are in order.
pub(crate) fn cover_passed(
    edges: &[u8],
    groups: usize,
    metas: usize,
    work: &mut [u32],
    marks: &mut [u8],
) -> Result<u32, Refusal>
    requires { CoverReady edges.now groups metas (length work.old) }
    ensures { outcome result (work.new ∷ marks.new ∷ []) ≡ handed work.old marks.old (cover_marks edges.now groups) }
{
    let all = Edges::of(edges);
    if groups == 0 {
        clear(work);
        return Ok(0);
    }
    if marks.len() < groups {
        cover_short(&all, groups, metas, marks, work);
        return Err(Refusal::Room);
    }
    let count = groups as u32;
    cover_all(&all, groups, metas, marks, work);
    Ok(count)
}

// Writes a mark for each group into marks: 1 where the cover of the edge records has it, else 0.
pub fn cover(
    edges: &[u8],
    groups: u32,
    metas: u32,
    work: &mut [u32],
    marks: &mut [u8],
) -> Result<u32, Refusal>
    ensures { outcome result (work.new ∷ marks.new ∷ []) ≡ cover_outcome edges.now groups metas work.old marks.old }
{
    let left = groups as usize;
    let right = metas as usize;
    cover_tested(edges, left, right, work.len())?;
    cover_passed(edges, left, right, work, marks)
}
