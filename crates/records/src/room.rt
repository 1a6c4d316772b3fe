// Room in a lent buffer.
ghost use Rattle.std.specs.Prelude.{◌≡◌, ◌/◌, min};

// How many whole records of a size so many bytes hold, up to the list's limit.
pub fn room_for(bytes: usize, size: usize, limit: usize) -> usize
    ensures { result ≡ min (bytes / size) limit }
{
    if size == 0 {
        return 0;
    }
    let whole = bytes / size;
    whole.min(limit)
}
