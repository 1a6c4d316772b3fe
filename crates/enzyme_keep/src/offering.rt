// Ranges that become records.
ghost use Rattle.std.specs.Prelude.{◌≡◌, ◌≤◌, ltb};
ghost use Rattle.enzyme_cuts.specs.Cutting.{range, within};
ghost use Rattle.enzyme_keep.specs.Buffer.{placed_record};
ghost use Rattle.enzyme_keep.specs.Digests.{record_of};
ghost use Rattle.enzyme_keep.specs.Steps.{digest_room, after, decided};

use crate::record::{position, put_placed};

// The least and the greatest length of a digest, and the number of its protein.
#[derive(Clone, Copy)]
pub struct Terms {
    pub minimum: u32,
    pub maximum: u32,
    pub protein: u32,
}

// Whether a digest may have this length.
pub fn length_within(len: usize, minimum: u32, maximum: u32) -> bool
    ensures { result ≡ within minimum maximum len }
{
    (1 <= len) & (minimum as usize <= len) & (len <= maximum as usize)
}

// Writes the record of a..e with this position, which occurs so many times, behind the first count records, where it is wanted and
// there is room, with `last` where the protein's number stands.
pub fn write_placed(
    wanted: bool,
    a: usize,
    e: usize,
    missed: u8,
    semi: u8,
    place: u8,
    last: u32,
    times: u32,
    out: &mut [u8],
    count: usize,
) -> Option<usize>
    requires { (a ≤ 65536) × (e ≤ 65536) }
    ensures { after result out.new ≡ decided wanted (ltb count (digest_room out.old)) count out.old (placed_record place last (range a e missed semi) times) }
{
    if !wanted {
        return Some(count);
    }
    if records::room_for(out.len(), 20, 1048576) <= count {
        return None;
    }
    put_placed(out, 20 * count, a, e, missed, semi, place, last, times);
    let next = count + 1;
    Some(next)
}

// The same of a protein of n letters.
pub fn write_range(
    wanted: bool,
    a: usize,
    e: usize,
    missed: u8,
    semi: u8,
    n: usize,
    last: u32,
    times: u32,
    out: &mut [u8],
    count: usize,
) -> Option<usize>
    requires { (a ≤ 65536) × (e ≤ 65536) }
    ensures { after result out.new ≡ decided wanted (ltb count (digest_room out.old)) count out.old (record_of n last (range a e missed semi) times) }
{
    let place = position(a, e, n);
    write_placed(wanted, a, e, missed, semi, place, last, times, out, count)
}
