// The first name that equals an earlier one: their numbers are sorted by name in a table of the call's own.
ghost use Rattle.std.specs.Prelude.{◌≡◌, ◌+◌, ◌≤◌, length};
ghost use Rattle.catalogue_repeats.specs.Repeating.{cleared, repeat_place};
ghost use Rattle.sorting_spec.specs.Joined.{name_of};
ghost use Rattle.sorting_spec.specs.Repeats.{first_repeat};
ghost use Rattle.catalogue_spec.specs.Names.{name_count};

use sorting_repeats::Unfit;

fn place_in(n: usize, found: Result<Option<usize>, Unfit>) -> usize
    ensures { result ≡ repeat_place n found }
{
    found.unwrap_or(None).unwrap_or(n)
}

// With a table that is lent: two numbers a name, which are zero at the end.
pub fn repeat_over(names: &[u8], tab: &mut [u32]) -> usize
    requires { (name_count names.now ≤ 65536) × (name_count names.now + name_count names.now ≤ length tab.old) }
    ensures { (result ≡ first_repeat (name_of names.now) (name_count names.now)) × (tab.new ≡ cleared (name_count names.now) tab.old) }
{
    let found = sorting_repeats::first_repeated(names, tab);
    place_in(names.len() / 64, found)
}

// With a table of its own, of N numbers.
fn repeat_with<const N: usize>(names: &[u8]) -> Result<Option<usize>, Unfit>
    requires { (name_count names.now ≤ 65536) × (name_count names.now + name_count names.now ≤ N) × (N ≤ 131072) }
    ensures { repeat_place (name_count names.now) result ≡ first_repeat (name_of names.now) (name_count names.now) }
{
    let mut tab = [0u32; N];
    sorting_repeats::first_repeated(names, &mut tab)
}

// With the table for 256, 4,096 or 65,536 names: few do not pay for the clearing of a large one. It goes from one size to the next by a
// call of itself, so that each has its stack to itself: the compiler joins no function that has large tables into one that calls itself.
// It answers what was found, not a place: a call of itself that answers a number becomes a loop, and then all are joined.
fn repeat_within(room: usize, names: &[u8]) -> Result<Option<usize>, Unfit>
    requires { (name_count names.now ≤ 65536) × (1 ≤ room) × (room ≤ 1048576) }
    ensures { repeat_place (name_count names.now) result ≡ first_repeat (name_of names.now) (name_count names.now) }
{
    if room < names.len() / 64 {
        return repeat_within(16 * room, names);
    }
    if room <= 256 {
        return repeat_with::<512>(names);
    }
    if room <= 4096 {
        return repeat_with::<8192>(names);
    }
    repeat_with::<131072>(names)
}

// The first record that equals an earlier one, or their number.
pub fn first_repeat(names: &[u8]) -> usize
    requires { name_count names.now ≤ 65536 }
    ensures { result ≡ first_repeat (name_of names.now) (name_count names.now) }
{
    let found = repeat_within(256, names);
    place_in(names.len() / 64, found)
}
