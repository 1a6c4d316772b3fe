// The fields of a digest record.
ghost use Rattle.std.specs.Prelude.{◌≡◌};
ghost use Rattle.enzyme_keep.specs.Digests.{good_record};

// Start below end, end within the longest protein there is, missed to 16, flags 0 or 1, position to 3.
pub fn is_good(bytes: &[u8]) -> bool
    ensures { result ≡ good_record bytes.now }
{
    let start = records::u32_at(bytes, 0);
    let end = records::u32_at(bytes, 4);
    let missed = records::byte_at(bytes, 8);
    let semi = records::byte_at(bytes, 9);
    let position = records::byte_at(bytes, 10);
    let decoy = records::byte_at(bytes, 11);
    (start < end) & (end <= 65536) & (missed <= 16) & (semi <= 1) & (position <= 3) & (decoy <= 1)
}
