// The number of a record of the list.
ghost use Rattle.std.specs.Prelude.{◌≡◌, ◌≤◌, ◌<◌};
ghost use Rattle.enzyme_list.specs.Tally.{times_added};

// Record t, numbered from 1, gets so many more. No call comes to 2^32; that the sum would go round there spares the contract
// a bound.
pub(crate) fn add_times(out: &mut [u8], t: usize, times: u32)
    requires { (0 < t) × (t ≤ 1048576) }
    ensures { out.new ≡ times_added out.old t times }
{
    let at = 20 * (t - 1) + 16;
    let new = records::u32_at(out, at).wrapping_add(times);
    records::put_u32(out, at, new);
}
