// The groups of digests, as records of lent buffers.
ghost use Rattle.std.specs.Prelude.{◌≡◌, [], ◌∷◌};
ghost use Rattle.records.specs.Outcome.{outcome};
ghost use Rattle.digest_groups_spec.specs.DigestGrouping.{digest_groups_outcome};

use crate::tests::tested;
use records::Refusal;

// Writes a record for each group of digests equal in position, decoy and letters to groups, and the lists of their proteins to
// proteins. The work memory is zero after acceptance or where a list has no room.
pub fn group_digests(
    names: &[u8],
    bounds: &[u32],
    letters: &[u8],
    digests: &[u8],
    work: &mut [u32],
    groups: &mut [u8],
    proteins: &mut [u32],
) -> Result<u32, Refusal>
    ensures { outcome result (work.new ∷ groups.new ∷ proteins.new ∷ []) ≡ digest_groups_outcome names.now bounds.now letters.now digests.now work.old groups.old proteins.old }
{
    tested(names, bounds, letters, digests, work.len())?;
    digest_groups_tables::gather(names, bounds, letters, digests, work, groups, proteins)
}
