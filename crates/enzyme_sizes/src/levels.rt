// Levels of tables, where these are long enough.
// Each table is lent on its own, for a level reads `name` and writes the others; they have places for more than m sites (no heap).
ghost use Rattle.std.specs.Prelude.{true, ◌≡◌, ◌+◌, ◌≤◌, ◌<◌, length};
ghost use Rattle.enzyme_windows.specs.Pieces.{pieces};
ghost use Rattle.enzyme_words.specs.Words.{Zeros};
ghost use Rattle.enzyme_levels.specs.Levels.{TextsPlaced};
ghost use Rattle.enzyme_sizes.specs.Told.{TablesLong, LevelTold};

use enzyme_cuts::Knife;

// Windows of one site. Says how many sites stand in the order: none, if equal ones are not looked for.
pub fn begin(
    looked: bool,
    letters: &[u8],
    knife: Knife,
    starts: &[u32],
    m: usize,
    order: &mut [u16],
    other: &mut [u16],
    name: &mut [u16],
    rank: &mut [u16],
    share: &mut [u8],
    seen: &mut [u8],
) -> usize
    requires { TextsPlaced (pieces knife letters.now) letters.now starts.now m × (m ≤ 65536) × TablesLong looked order.old other.old rank.old share.old m × (looked ≡ true → m ≤ length name.old) × Zeros share.old }
    ensures { LevelTold looked (pieces knife letters.now) letters.now starts.now order.new other.new name.new rank.new share.new 1 result m }
{
    if looked {
        return enzyme_levels::first_level(
            letters, starts, m, order, other, name, rank, share, seen,
        );
    }
    0
}

// From windows of k sites to those of k + 1.
pub(crate) fn raise(
    looked: bool,
    letters: &[u8],
    knife: Knife,
    starts: &[u32],
    m: usize,
    k: usize,
    g: usize,
    order: &mut [u16],
    other: &mut [u16],
    name: &[u16],
    rank: &mut [u16],
    share: &mut [u8],
) -> usize
    requires { LevelTold looked (pieces knife letters.now) letters.now starts.now order.old other.old name.now rank.old share.old k g m × (k < 17) × TablesLong looked order.old other.old rank.old share.old m }
    ensures { LevelTold looked (pieces knife letters.now) letters.now starts.now order.new other.new name.now rank.new share.new (k + 1) result m }
{
    if looked {
        return enzyme_levels::next_level(letters, starts, m, k, g, order, other, name, rank, share);
    }
    g
}
