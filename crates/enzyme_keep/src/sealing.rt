// The last pass: the protein's number takes the place of the links.
ghost use Rattle.std.specs.Prelude.{◌≡◌, ◌*◌, ◌≤◌, length};
ghost use Rattle.records.specs.Room.{room_of};
ghost use Rattle.enzyme_keep.specs.Buffer.{sealed};

use crate::record::put_number;

// Writes p where the links of the first count records stand.
pub fn seal(out: &mut [u8], count: usize, p: u32)
    requires { 20 * count ≤ length out.old }
    ensures { out.new ≡ sealed p count out.old }
{
    for k in 0..count {
        put_number(out, 20 * k + 12, p);
    }
}

// The same for all the records for which there is room.
pub fn seal_all(out: &mut [u8], p: u32)
    ensures { out.new ≡ sealed p (room_of 20 1048576 out.old) out.old }
{
    let n = records::room_for(out.len(), 20, 1048576);
    seal(out, n, p);
}
