// Tables of sites: one number for each, read and written by the sites that stand in a row. A row is the first g of a table, which is longer:
// what is proved of the steps speaks of the whole table and g.
ghost use Rattle.std.specs.Prelude.{◌≡◌, cond, ℕ, ◌+◌, ◌≤◌, ◌<◌, eqb, length, get_or};
ghost use Rattle.enzyme_rows.specs.Steps.{AmongFirst, FirstDiffer, Brought, Called, RepeatsMarked};

// How many there are, with one more or not.
pub fn after(k: usize, more: bool) -> usize
    requires { k < 65536 }
    ensures { result ≡ cond more (k + 1) k }
{
    k + usize::from(more)
}

// All m sites in a row; nothing is shared yet.
pub fn count_up(order: &mut [u16], share: &mut [u8], m: usize)
    requires { (m ≤ length order.old) × (m ≤ length share.old) × (m ≤ 65536) }
    ensures { (i : ℕ) → i < m → (get_or order.new i 0 ≡ i) × (get_or share.new i 0 ≡ 0) }
{
    for i in 0..m {
        order[i] = i as u16;
        share[i] = 0;
    }
}

// Ranks the first g sites in the order by where their runs start.
pub fn bring(order: &[u16], runs: &[u16], rank: &mut [u16], g: usize)
    requires { (g ≤ length order.now) × (g ≤ length runs.now) × FirstDiffer order.now g × ((z : ℕ) → AmongFirst order.now g z → z < length rank.old) }
    ensures { Brought order.now runs.now rank.old rank.new g }
{
    for i in 0..g {
        let x = usize::from(order[i]);
        rank[x] = runs[i];
    }
}

// Names the first g sites in the order by the first site of their run.
pub fn name_runs(order: &[u16], runs: &[u16], name: &mut [u16], g: usize)
    requires { (g ≤ length order.now) × (g ≤ length runs.now) × FirstDiffer order.now g × ((z : ℕ) → AmongFirst order.now g z → z < length name.old) × ((p : ℕ) → p < g → get_or runs.now p 0 < g) }
    ensures { Called order.now runs.now name.old name.new g }
{
    for i in 0..g {
        let x = usize::from(order[i]);
        let first = usize::from(runs[i]);
        name[x] = order[first];
    }
}

// What is shared by the site at a place of the order: n, but for the first of a run.
fn shared(run: u16, place: usize, old: u8, n: u8) -> u8
    ensures { result ≡ cond (eqb run place) old n }
{
    if usize::from(run) == place { old } else { n }
}

// Writes n for each of the first g sites in the order that is not the first of its run.
pub fn mark(order: &[u16], runs: &[u16], share: &mut [u8], g: usize, n: u8)
    requires { (g ≤ length order.now) × (g ≤ length runs.now) × FirstDiffer order.now g × ((z : ℕ) → AmongFirst order.now g z → z < length share.old) }
    ensures { RepeatsMarked order.now runs.now share.old share.new n g }
{
    for i in 0..g {
        let x = usize::from(order[i]);
        share[x] = shared(runs[i], i, share[x], n);
    }
}
