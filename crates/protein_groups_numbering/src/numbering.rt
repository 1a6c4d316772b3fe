// Numbers by first appearance.
ghost use Rattle.std.specs.Prelude.{◌≡◌, ℕ, ◌+◌, ◌<◌, ◌≤◌, length, get_or};
ghost use Rattle.protein_groups_numbering.specs.KnowingLaws.{Register, Learnt, AllNumbered};

use records::wide;

// Learns x: where it is not among the found, which stand from w[b] on with their table from w[t] on, it is one more.
// (Places and counts, not slices: without a heap all tables stand in the one slice that was lent.)
fn learn(w: &mut [u32], b: usize, t: usize, m: usize, found: u32, x: u32) -> u32
    requires { Register w.old b t m found × (b + m ≤ t) × (t + m ≤ length w.old) × (x < m) × (m < 4294967296) }
    ensures { Learnt w.old w.new b t m found x result }
{
    let at = t + wide(x);
    if w[at] == 0 {
        let to = b + wide(found);
        w[to] = x;
        w[at] = found + 1;
        return found + 1;
    }
    found
}

// Numbers the n things from w[l] on, each below m, by first appearance, in place. Answers how many there are; they stand from w[b] on.
// (Places and counts here too.)
pub fn number_all(w: &mut [u32], b: usize, t: usize, m: usize, l: usize, n: usize) -> u32
    requires { (b + m ≤ t) × (t + m ≤ l) × (l + n ≤ length w.old) × (m < 4294967296) × ((k : ℕ) → k < m → get_or w.old (t + k) 0 ≡ 0) × ((i : ℕ) → i < n → get_or w.old (l + i) 0 < m) }
    ensures { AllNumbered w.old w.new b t m l n result }
{
    let mut found = 0u32;
    for i in 0..n {
        let at = l + i;
        let x = w[at];
        found = learn(w, b, t, m, found, x);
        let of = t + wide(x);
        let k = w[of] - 1;
        w[at] = k;
    }
    found
}
