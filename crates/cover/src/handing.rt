// The marks of the cover, as many as there is room for.
ghost use Rattle.std.specs.Prelude.{◌≡◌, ◌≤◌, ◌<◌, length, replicate};
ghost use Rattle.std.proofs.lemmas.List.Edits.{sets};
ghost use Rattle.cover_spec.specs.Cover.{cover_list};
ghost use Rattle.cover_edges.specs.Records.{edges_in};
ghost use Rattle.cover_walk.specs.Tables.{RunFits};

use cover_edges::Edges;
use cover_walk::cover_into;
use records::put_at;

// Room for the marks of all groups: 128 KiB of stack.
fn all_marks() -> [u8; 131072]
    ensures { length result ≡ 131072 }
{
    [0; 131072]
}

// The cover is made in `all`, and its first marks are handed out.
fn cover_in(
    edges: &Edges,
    groups: usize,
    metas: usize,
    all: &mut [u8],
    marks: &mut [u8],
    work: &mut [u32],
)
    requires run_fits { RunFits edges.now.bytes.now edges.now.count groups metas groups (length work.old) }
    requires marks_len_bound { (length marks.old < groups) × (groups ≤ length all.old) }
    ensures marks_after { marks.new ≡ sets marks.old 0 (cover_list groups (edges_in edges.now)) }
    ensures work_after { work.new ≡ replicate (length work.old) 0 }
{
    cover_into(edges, groups, metas, &mut all[0..groups], work);
    put_at(marks, 0, &all[0..groups]);
}

// With less room than groups.
pub(crate) fn cover_short(
    edges: &Edges,
    groups: usize,
    metas: usize,
    marks: &mut [u8],
    work: &mut [u32],
)
    requires run_fits { RunFits edges.now.bytes.now edges.now.count groups metas groups (length work.old) }
    requires marks_len_bound { length marks.old < groups }
    ensures marks_after { marks.new ≡ sets marks.old 0 (cover_list groups (edges_in edges.now)) }
    ensures work_after { work.new ≡ replicate (length work.old) 0 }
{
    let mut all = all_marks();
    cover_in(edges, groups, metas, &mut all, marks, work);
}

// With room for all groups.
pub(crate) fn cover_all(
    edges: &Edges,
    groups: usize,
    metas: usize,
    marks: &mut [u8],
    work: &mut [u32],
)
    requires run_fits { RunFits edges.now.bytes.now edges.now.count groups metas groups (length work.old) }
    requires groups_in_bounds { groups ≤ length marks.old }
    ensures marks_after { marks.new ≡ sets marks.old 0 (cover_list groups (edges_in edges.now)) }
    ensures work_after { work.new ≡ replicate (length work.old) 0 }
{
    cover_into(edges, groups, metas, &mut marks[0..groups], work);
}
