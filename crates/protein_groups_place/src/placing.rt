// Pairs placed in work memory: the peptides in a row, and behind them what each pair shows.
ghost use Rattle.std.specs.Prelude.{◌≡◌, ℕ, ◌+◌, ◌*◌, ◌≤◌, ◌<◌, length, set};
ghost use Rattle.records.specs.Le.{number_at};
ghost use Rattle.protein_groups_spec.specs.ProteinGroups.{pair_at};
ghost use Rattle.protein_groups_spec.specs.PackedGroups.{packed_seen};
ghost use Rattle.protein_groups_place.specs.Placing.{PairsLaid};

use records::{byte_at, u32_at};

// What a pair shows: a protein seen from a target and a decoy peptide is two.
fn shown(protein: u32, flag: u8) -> u32
    requires { protein < 65536 }
    ensures { result ≡ protein * 2 + flag }
{
    protein * 2 + u32::from(flag)
}

// Places pair i of n.
// (n beside w: without a heap both rows stand in the one slice that was lent, and n is where the second begins.)
fn place_pair(pairs: &[u8], flags: &[u8], w: &mut [u32], a: usize, n: usize, i: usize)
    requires { (i < n) × (n ≤ 1048576) × (a + n + n ≤ length w.old) × (number_at 4 pairs.now (8 * i + 4) < 65536) }
    ensures { w.new ≡ set (set w.old (a + i) (pair_at pairs.now i).peptide) (a + n + i) (packed_seen flags.now (pair_at pairs.now i)) }
{
    let peptide = u32_at(pairs, 8 * i);
    let protein = u32_at(pairs, 8 * i + 4);
    let at = peptide as usize;
    let flag = byte_at(flags, at);
    let both = shown(protein, flag);
    w[a + i] = peptide;
    w[a + n + i] = both;
}

// Places n pairs: their peptides from w[a] on, and what they show from w[a + n] on.
// (n for the same reason.)
pub fn place_pairs(pairs: &[u8], flags: &[u8], w: &mut [u32], a: usize, n: usize)
    requires { (n ≤ 1048576) × (a + n + n ≤ length w.old) × ((i : ℕ) → i < n → number_at 4 pairs.now (8 * i + 4) < 65536) }
    ensures { PairsLaid pairs.now flags.now a n n w.old w.new }
{
    for i in 0..n {
        place_pair(pairs, flags, w, a, n, i);
    }
}
