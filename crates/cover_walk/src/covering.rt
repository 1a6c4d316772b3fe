// The whole run.
ghost use Rattle.std.specs.Prelude.{◌≡◌, length, replicate};
ghost use Rattle.cover_spec.specs.Cover.{cover_list};
ghost use Rattle.cover_edges.specs.Records.{edges_in};
ghost use Rattle.cover_walk.specs.Tables.{RunFits};

use crate::marking::write_marks;
use crate::running::run;
use cover_edges::{Edges, clear_marks};
use records::clear;

// The cover of edge records, a mark for each group; the work slice is zeros then.
pub fn cover_into(edges: &Edges, groups: usize, metas: usize, marks: &mut [u8], work: &mut [u32])
    requires { RunFits edges.now.bytes.now edges.now.count groups metas (length marks.old) (length work.old) }
    ensures marks_after { marks.new ≡ cover_list groups (edges_in edges.now) }
    ensures work_after { work.new ≡ replicate (length work.old) 0 }
{
    if edges.count == 0 {
        clear_marks(marks);
        clear(work);
        return;
    }
    run(edges, work, groups, metas);
    write_marks(work, groups + metas, marks);
    clear(work);
}
