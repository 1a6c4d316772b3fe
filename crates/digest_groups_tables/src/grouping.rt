// Digests sorted, made groups, and written.
ghost use Rattle.std.specs.Prelude.{◌≡◌, cond, ◌&&◌, [], ◌∷◌, ◌*◌, ◌/◌, ◌≤◌, min, leb, length};
ghost use Rattle.std.proofs.lemmas.List.Edits.{sets};
ghost use Rattle.records.specs.Outcome.{outcome};
ghost use Rattle.digest_groups_spec.specs.DigestGroups.{digests_in, gathered, digests_grouped};
ghost use Rattle.digest_groups_words.specs.Tables.{GoodDigests};
ghost use Rattle.digest_groups_runs.specs.Turns.{DigestsSorted};

use digest_groups_runs::gather_runs;
use digest_groups_words::spell_all;
use records::Refusal;
use sorting_texts::By;

// Sorts the numbers of n digests by position, decoy and letters.
fn arrange(letters: &[u8], bounds: &[u32], digests: &[u8], w: &mut [u32], n: usize)
    requires { GoodDigests bounds.now letters.now digests.now n × (5 * n ≤ length w.old) }
    ensures { DigestsSorted bounds.now letters.now digests.now n w.new }
{
    spell_all(letters, bounds, digests, w, n);
    sorting_slices::sort(By::Spelled(n as u32), letters, w, 0, n, n, 2 * n);
}

// How many groups there are, or that a list has no room for all.
fn answer(g: usize, groups: usize, n: usize, proteins: usize) -> Result<u32, Refusal>
    requires { (g ≤ 1048576) × (n ≤ 1048576) }
    ensures { result ≡ cond (leb g (min (groups / 28) 1048576) && leb n (min (proteins / 1) 1048576)) (Ok g) (Err Refusal.Room) }
{
    let most = records::room_for(groups, 28, 1048576);
    let longest = records::room_for(proteins, 1, 1048576);
    if (g <= most) & (n <= longest) {
        Ok(g as u32)
    } else {
        Err(Refusal::Room)
    }
}

// Stores the list of proteins, as far as there is room. No put_at: here it becomes a call of memmove in C's archive, which the archive
// needs nowhere else.
fn put_list(list: &[u32], out: &mut [u32])
    ensures { out.new ≡ sets out.old 0 list.now }
{
    let n = list.len().min(out.len());
    for i in 0..n {
        out[i] = list[i];
    }
}

// Writes the groups of digests that are in order and the lists of their proteins, and clears the work memory.
pub fn gather(
    names: &[u8],
    bounds: &[u32],
    letters: &[u8],
    digests: &[u8],
    w: &mut [u32],
    groups: &mut [u8],
    proteins: &mut [u32],
) -> Result<u32, Refusal>
    requires { GoodDigests bounds.now letters.now digests.now (length digests.now / 20) × (5 * (length digests.now / 20) ≤ length w.old) }
    ensures { outcome result (w.new ∷ groups.new ∷ proteins.new ∷ []) ≡ digests_grouped names.now (gathered bounds.now letters.now (digests_in digests.now)) w.old groups.old proteins.old }
{
    let n = digests.len() / 20;
    let free = groups.len();
    let open = proteins.len();
    arrange(letters, bounds, digests, w, n);
    let g = gather_runs(names, letters, digests, w, n, groups);
    put_list(&w[0..n], proteins);
    records::clear(w);
    answer(g, free, n, open)
}
