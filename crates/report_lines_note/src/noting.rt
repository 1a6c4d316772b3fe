// Which groups apply, noted in a lent slice: the proteins of the list from w[0] on, the groups from w[c] on.
ghost use Rattle.std.specs.Prelude.{◌≡◌, cond, List, ℕ, ◌+◌, ◌*◌, ◌≤◌, ◌<◌, length, get_or, set};
ghost use Rattle.lists.specs.Lists.{occurs};
ghost use Rattle.records.specs.Le.{number_at};
ghost use Rattle.protein_groups_members.specs.Members.{member_at};
ghost use Rattle.report_lines_note.specs.Noting.{first_members, ListNoted, applies_by, Flagged};

use records::{byte_at, u32_at};

// Notes each number of a list, all below c.
pub fn note_list(list: &[u32], w: &mut [u32], c: usize)
    requires { (c ≤ length w.old) × ((i : ℕ) → i < length list.now → get_or list.now i 0 < c) × ((p : ℕ) → p < c → get_or w.old p 0 ≡ 0) }
    ensures { ListNoted list.now w.old w.new c }
{
    for p in list {
        w[*p as usize] = 1;
    }
}

// Notes the group of member i, where it applies by it.
fn note_group(members: &[u8], i: usize, marks: &[u8], decoy: bool, w: &mut [u32], c: usize)
    requires { (i < 131072) × (c + number_at 4 members.now (12 * i) < length w.old) × (number_at 4 members.now (12 * i + 4) < length w.old) }
    ensures { w.new ≡ set w.old (c + number_at 4 members.now (12 * i)) (cond (applies_by decoy marks.now w.old (member_at members.now i)) 1 (get_or w.old (c + number_at 4 members.now (12 * i)) 0)) }
{
    let at = 12 * i;
    let g = u32_at(members, at) as usize;
    let p = u32_at(members, at + 4) as usize;
    let flag = u8::from(decoy);
    if (byte_at(members, at + 8) == flag) & (w[p] == 1) & (byte_at(marks, g) == 1) {
        w[c + g] = 1;
    }
}

// Notes each of m groups that applies, by n members, the proteins of the list being noted.
// (n and m beside w: without a heap the notes of proteins and groups stand in the one slice that was lent.)
pub fn note_groups(
    members: &[u8],
    n: usize,
    marks: &[u8],
    decoy: bool,
    w: &mut [u32],
    c: usize,
    m: usize,
)
    requires { (n ≤ 131072) × (c + m ≤ length w.old) × ((i : ℕ) → i < n → number_at 4 members.now (12 * i) < m) × ((i : ℕ) → i < n → number_at 4 members.now (12 * i + 4) < c) × ((g : ℕ) → g < m → get_or w.old (c + g) 0 ≡ 0) }
    ensures { (list : List ℕ) → ((p : ℕ) → p < c → get_or w.old p 0 ≡ cond (occurs p list) 1 0) → Flagged (first_members members.now n) marks.now list decoy w.old w.new c m }
{
    for i in 0..n {
        note_group(members, i, marks, decoy, w, c);
    }
}
