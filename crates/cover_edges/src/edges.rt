// Edge records at the front of lent bytes.
ghost use Rattle.std.specs.Prelude.{◌≡◌, ◌+◌, ◌*◌, ◌≤◌, ◌<◌};
ghost use Rattle.records.specs.Le.{number_at};
ghost use Rattle.cover_edges.specs.Edges.{edge_count};

use records::u32_at;

// So many of them: each is 8 bytes, group and meta-peptide.
#[derive(Clone, Copy)]
pub struct Edges<'a> {
    pub bytes: &'a [u8],
    pub count: usize,
}

impl<'a> Edges<'a> {
    // All that are whole.
    pub fn of(bytes: &'a [u8]) -> Edges<'a>
        ensures { (result.bytes.now ≡ bytes.now) × (result.count ≡ edge_count bytes.now) }
    {
        Edges {
            bytes,
            count: bytes.len() / 8,
        }
    }

    // The group of record i.
    pub fn group(&self, i: usize) -> usize
        requires { i ≤ 1048576 }
        ensures { (result ≡ number_at 4 self.now.bytes.now (8 * i)) × (result < 4294967296) }
    {
        u32_at(self.bytes, 8 * i) as usize
    }

    // Its meta-peptide.
    pub fn meta(&self, i: usize) -> usize
        requires { i ≤ 1048576 }
        ensures { (result ≡ number_at 4 self.now.bytes.now (8 * i + 4)) × (result < 4294967296) }
    {
        u32_at(self.bytes, 8 * i + 4) as usize
    }
}
