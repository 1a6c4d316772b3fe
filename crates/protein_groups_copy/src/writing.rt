// Edges and members written from work memory as records, those that fit.
ghost use Rattle.std.specs.Prelude.{◌≡◌, map, ◌+◌, ◌≤◌, ◌<◌, length, get_or};
ghost use Rattle.protein_groups_spec.specs.Rows.{standing_edges, member_of, standing_members};
ghost use Rattle.records.specs.Room.{room_of, fitted};
ghost use Rattle.records.specs.StoreLaws.{stored};
ghost use Rattle.cover_edges.specs.Edges.{edge_bytes};
ghost use Rattle.protein_groups_members.specs.Members.{member_bytes};

use records::{put_u32, room_for};
use sorting_texts::number_at;

// Writes edge i, where there is room for it.
fn put_edge(group: u32, meta: u32, i: usize, room: usize, out: &mut [u8])
    requires { (i < 1048576) × (room ≡ room_of 8 1048576 out.old) }
    ensures { out.new ≡ stored 8 1048576 out.old i (edge_bytes (group, meta)) }
{
    if room <= i {
        return;
    }
    let k = 8 * i;
    put_u32(out, k, group);
    put_u32(out, k + 4, meta);
}

// Writes the n edges whose groups stand from w[b] on, and their meta-peptides from w[a] on.
// (Places and a count, not slices: specs/ has the edges by where they stand in the work memory.)
pub fn write_edges(w: &[u32], a: usize, b: usize, n: usize, out: &mut [u8])
    requires { (n ≤ 1048576) × (a + n ≤ length w.now) × (b + n ≤ length w.now) }
    ensures { out.new ≡ fitted 8 1048576 out.old (map edge_bytes (standing_edges w.now a b n)) }
{
    let room = room_for(out.len(), 8, 1048576);
    for i in 0..n {
        put_edge(w[b + i], w[a + i], i, room, out);
    }
}

// Writes member j, where there is room for it: of a group, with what its pairs show.
fn put_member(group: u32, shown: u32, j: usize, room: usize, out: &mut [u8])
    requires { (j < 131072) × (room ≡ room_of 12 131072 out.old) }
    ensures { out.new ≡ stored 12 131072 out.old j (member_bytes (member_of group shown)) }
{
    if room <= j {
        return;
    }
    let k = 12 * j;
    put_u32(out, k, group);
    put_u32(out, k + 4, shown / 2);
    put_u32(out, k + 8, shown % 2);
}

// What protein j in the order from w[o] on is shown by.
fn shown_at(w: &[u32], o: usize, j: usize) -> u32
    requires { o + j < length w.now }
    ensures { result ≡ get_or w.now (get_or w.now (o + j) 0) 0 }
{
    let place = w[o + j] as usize;
    number_at(w, place)
}

// Writes the n members whose groups stand from w[s] on, and the places in w of what shows them from w[o] on.
// (So for the members.)
pub fn write_members(w: &[u32], o: usize, s: usize, n: usize, out: &mut [u8])
    requires { (n ≤ 131072) × (o + n ≤ length w.now) × (s + n ≤ length w.now) }
    ensures { out.new ≡ fitted 12 131072 out.old (map member_bytes (standing_members w.now o s n)) }
{
    let room = room_for(out.len(), 12, 131072);
    for j in 0..n {
        let shown = shown_at(w, o, j);
        put_member(w[s + j], shown, j, room, out);
    }
}
