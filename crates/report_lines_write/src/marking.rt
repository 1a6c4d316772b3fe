// The last entry of each stretch marked, and where stretches begin.
ghost use Rattle.std.specs.Prelude.{◌≡◌, cond, ◌+◌, ◌-◌, ◌*◌, ◌≤◌, ◌<◌, length, get_or};
ghost use Rattle.report_lines_write.specs.Laid.{bound_in, some_in, StretchesLaid};
ghost use Rattle.report_lines_write.specs.MarkLaws.{marked, LastsMarked};

// Marks the last entry of stretch g, whose boundaries stand among those from b on, and puts where it begins behind the others from
// c on; an empty one is passed over.
// (count is how many stand from c on, in the one slice that was lent.)
fn mark_one(w: &mut [u32], c: usize, b: usize, g: usize, count: usize) -> usize
    requires { (b + (g + 1) < length w.old) × (bound_in w.old b (g + 1) ≤ c) × (c + count < length w.old) × (bound_in w.old b g < bound_in w.old b (g + 1) → get_or w.old (bound_in w.old b (g + 1) - 1) 0 < 4294967295) }
    ensures { (result ≡ cond (some_in w.old b g) (count + 1) count) × (w.new ≡ marked c b g count w.old) }
{
    let lo = w[b + g];
    let hi = w[b + (g + 1)];
    if lo < hi {
        let last = (hi - 1) as usize;
        let entry = w[last] + 1;
        w[last] = entry;
        w[c + count] = lo;
        count + 1
    } else {
        count
    }
}

// Marks the last entry of each of so many stretches, and puts where those begin that have an entry from c on. Answers how many.
pub(crate) fn mark_lasts(w: &mut [u32], c: usize, groups: usize) -> usize
    requires { StretchesLaid w.old c groups }
    ensures { LastsMarked w.old c groups w.new result }
{
    let b = 2 * c + 16;
    let mut count = 0;
    for g in 0..groups {
        count = mark_one(w, c, b, g, count);
    }
    count
}
