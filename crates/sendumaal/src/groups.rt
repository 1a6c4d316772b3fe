// Groups of digests, the cover of groups, and its update.
ghost use Rattle.std.specs.Prelude.{◌≡◌, List, [], ◌∷◌};
ghost use Rattle.records.specs.Outcome.{outcome};
ghost use Rattle.sendumaal.specs.GroupCalls.{group_call, cover_call, update_call};

use sendumaal_calls::counted;

pub fn sendumaal_group_digests(
    names: &[u8],
    bounds: &[u32],
    letters: &[u8],
    digests: &[u8],
    work: &mut [u32],
    groups: &mut [u8],
    proteins: &mut [u32],
    count: &mut u32,
    place: &mut usize,
) -> u32
    ensures { outcome result ((place.new ∷ []) ∷ (count.new ∷ []) ∷ work.new ∷ groups.new ∷ proteins.new ∷ []) ≡ group_call names.now bounds.now letters.now digests.now work.old groups.old proteins.old count.old }
{
    let answer = digest_groups::group_digests(
        names, bounds, letters, digests, work, groups, proteins,
    );
    counted(answer, count, place)
}

pub fn sendumaal_cover(
    edges: &[u8],
    groups: u32,
    metas: u32,
    work: &mut [u32],
    marks: &mut [u8],
    count: &mut u32,
    place: &mut usize,
) -> u32
    ensures { outcome result ((place.new ∷ []) ∷ (count.new ∷ []) ∷ work.new ∷ marks.new ∷ []) ≡ cover_call edges.now groups metas work.old marks.old count.old }
{
    let answer = cover::cover(edges, groups, metas, work, marks);
    counted(answer, count, place)
}

pub fn sendumaal_update(
    old: &[u8],
    new: &[u8],
    groups: u32,
    metas: u32,
    given: &[u8],
    work: &mut [u32],
    marks: &mut [u8],
    count: &mut u32,
    place: &mut usize,
) -> u32
    ensures { outcome result ((place.new ∷ []) ∷ (count.new ∷ []) ∷ work.new ∷ marks.new ∷ []) ≡ update_call old.now new.now groups metas given.now work.old marks.old count.old }
{
    let answer = cover::update(old, new, groups, metas, given, work, marks);
    counted(answer, count, place)
}
