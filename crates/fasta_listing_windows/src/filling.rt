// How a buffer is filled.
ghost use Rattle.std.specs.Prelude.{◌≤◌, length, IfOk};

use std::io;
use std::io::Read;

// Reads behind the first bytes until the buffer is full or the file ends: how far it is filled.
pub(crate) fn fill<F: Read>(file: &mut F, bytes: &mut [u8], first: usize) -> io::Result<usize>
    requires { first ≤ length bytes.old }
    ensures { IfOk result (λ to. to ≤ length bytes.new) }
{
    let mut n = first;
    // A while: each turn goes on by as many bytes as a read gives.
    while n < bytes.len() {
        let more = file.read(&mut bytes[n..])?;
        if more == 0 {
            break;
        }
        n += more;
    }
    Ok(n)
}
