// The first member record with a field out of range.
ghost use Rattle.std.specs.Prelude.{◌≡◌, ◌+◌, ◌*◌, ◌≤◌, length};
ghost use Rattle.protein_groups_members.specs.Members.{good_member, first_bad_member};

use records::{byte_at, u32_at};

fn is_good_member(members: &[u8], groups: usize, proteins: usize, i: usize) -> bool
    requires { 12 * i + 12 ≤ length members.now }
    ensures { result ≡ good_member members.now groups proteins i }
{
    let at = 12 * i;
    let group = u32_at(members, at) as usize;
    let protein = u32_at(members, at + 4) as usize;
    (group < groups)
        & (protein < proteins)
        & (byte_at(members, at + 8) <= 1)
        & (byte_at(members, at + 9) == 0)
        & (byte_at(members, at + 10) == 0)
        & (byte_at(members, at + 11) == 0)
}

// The first member whose group or protein is not below its count, whose flag is not 0 or 1 or has no zeros behind it, or how many
// there are.
pub fn first_bad_member(members: &[u8], groups: usize, proteins: usize) -> usize
    ensures { result ≡ first_bad_member members.now groups proteins }
{
    let n = members.len() / 12;
    for i in 0..n {
        if !is_good_member(members, groups, proteins, i) {
            return i;
        }
    }
    n
}
