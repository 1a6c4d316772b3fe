// Sorted digests made groups, run by run: each run becomes a record, and its place in the work memory the list of its proteins.
ghost use Rattle.std.specs.Prelude.{◌≡◌, ◌++◌, ℕ, ◌+◌, ◌*◌, ◌≤◌, ◌<◌, length, get_or};
ghost use Rattle.std.proofs.lemmas.List.Edits.{sets};
ghost use Rattle.records.specs.Le.{le};
ghost use Rattle.records.specs.StoreLaws.{stored};
ghost use Rattle.enzyme_keep.specs.Digests.{protein_in};
ghost use Rattle.digest_groups_spec.specs.DigestGroups.{digest_at};
ghost use Rattle.digest_groups_runs.specs.Turns.{Replaced, RunListed, DigestsReady, RunGrouped, RunsGathered};

use sorting_texts::By;

// The number of a digest's protein.
fn protein_of(digests: &[u8], x: u32) -> u32
    requires { 20 * x + 20 ≤ length digests.now }
    ensures { result ≡ protein_in (digest_at digests.now x) }
{
    let at = 20 * (x as usize);
    records::u32_at(&digests[at..at + 20], 12)
}

// Puts the number of its protein in the place of each digest's.
fn take_proteins(digests: &[u8], w: &mut [u32], lo: usize, hi: usize)
    requires { (lo ≤ hi) × (hi ≤ length w.old) × ((i : ℕ) → lo ≤ i → i < hi → 20 * get_or w.old i 0 + 20 ≤ length digests.now) }
    ensures { Replaced (λ x. protein_in (digest_at digests.now x)) w.old w.new lo hi }
{
    for i in lo..hi {
        w[i] = protein_of(digests, w[i]);
    }
}

// Stores a digest from place k on. No put_at: here it becomes a call of memmove in C's archive, which the archive needs nowhere else.
fn put_digest(digest: &[u8], out: &mut [u8], k: usize)
    requires { k + length digest.now ≤ length out.old }
    ensures { out.new ≡ sets out.old k digest.now }
{
    for i in 0..digest.len() {
        out[k + i] = digest[i];
    }
}

// Writes record g, where there is room for it: the reference, where its proteins begin, and how many they are.
fn put_group(digest: &[u8], at: usize, count: usize, out: &mut [u8], g: usize)
    requires { (length digest.now ≡ 20) × (at ≤ 1048576) × (count ≤ 1048576) }
    ensures { out.new ≡ stored 28 1048576 out.old g (digest.now ++ le 4 at ++ le 4 count) }
{
    if records::room_for(out.len(), 28, 1048576) <= g {
        return;
    }
    let k = 28 * g;
    put_digest(digest, out, k);
    records::put_u32(out, k + 20, at as u32);
    records::put_u32(out, k + 24, count as u32);
}

// Makes the numbers from lo up to hi the list of their proteins, sorted by name.
fn list_proteins(names: &[u8], digests: &[u8], w: &mut [u32], lo: usize, hi: usize, n: usize)
    requires { (lo ≤ hi) × (hi ≤ n) × DigestsReady digests.now n lo w.old }
    ensures { RunListed names.now digests.now w.old w.new lo hi n }
{
    take_proteins(digests, w, lo, hi);
    sorting_slices::sort(By::Name, names, w, lo, hi, n, 2 * n);
}

// Makes the run from lo on group g, and says where it ends.
fn gather_run(
    names: &[u8],
    letters: &[u8],
    digests: &[u8],
    w: &mut [u32],
    n: usize,
    lo: usize,
    groups: &mut [u8],
    g: usize,
) -> usize
    requires { (lo < n) × DigestsReady digests.now n lo w.old }
    ensures { RunGrouped names.now letters.now digests.now n lo w.old groups.old g result w.new groups.new }
{
    let hi = sorting_runs::run_end(By::Spelled(n as u32), letters, w, lo, n, 2 * n);
    let at = 20 * (w[lo] as usize);
    put_group(&digests[at..at + 20], lo, hi - lo, groups, g);
    list_proteins(names, digests, w, lo, hi, n);
    hi
}

// Makes all runs groups, and says how many they are.
pub fn gather_runs(
    names: &[u8],
    letters: &[u8],
    digests: &[u8],
    w: &mut [u32],
    n: usize,
    groups: &mut [u8],
) -> usize
    requires { DigestsReady digests.now n 0 w.old }
    ensures { RunsGathered names.now letters.now digests.now n w.old groups.old result w.new groups.new }
{
    let mut lo = 0;
    let mut g = 0;
    // A while: each turn goes to the end of a run.
    while lo < n {
        lo = gather_run(names, letters, digests, w, n, lo, groups, g);
        g += 1;
    }
    g
}
