// Weights of windows.
ghost use Rattle.std.specs.Prelude.{◌≡◌, ◌&&◌, ◌≤◌, ◌<◌, ltb, eqb, length, get_or};
ghost use Rattle.enzyme_weights.specs.Weights.{run_size, class_size, weight_at};

use crate::level::Level;

impl Level<'_> {
    // How many of the first g places belong to the run that starts at place p.
    fn run_size(&self, p: usize) -> u32
        ensures { result ≡ run_size self.now.runs.now self.now.g p }
    {
        let mut count = 0u32;
        for q in p..self.g {
            if usize::from(self.runs[q]) != p {
                return count;
            }
            count += 1;
        }
        count
    }

    // Whether place p is one of the first g and site i stands there. Both are told by one comparison: most sites are not in the order, but
    // their rank may be that of a place all the same, so that a test of the place alone could not be foreseen.
    fn stands_at(&self, p: usize, i: usize) -> bool
        requires { (0 < self.now.g) × (p < 65536) × (i < 9223372036854775808) }
        ensures { result ≡ (ltb p self.now.g && eqb (get_or self.now.order.now p 0) i) }
    {
        let at = p.min(self.g - 1);
        let x = usize::from(self.order[at]);
        65536 * at + x == 65536 * p + i
    }

    // How many windows are equal to the one from site i, where no earlier site starts one: it stands at the place that is its rank, or is the
    // only one.
    fn class_size(&self, i: usize) -> u32
        requires { (0 < self.now.g) × (i < length self.now.rank.now) }
        ensures { result ≡ class_size self.now.order.now self.now.runs.now self.now.rank.now self.now.g i }
    {
        let p = usize::from(self.rank[i]);
        if self.stands_at(p, i) {
            return self.run_size(p);
        }
        1
    }

    // The weight of the window from site i, where no earlier site starts an equal one: how many are equal to it.
    pub fn new_weight(&self, i: usize) -> u32
        requires { i < length self.now.rank.now }
        ensures { result ≡ class_size self.now.order.now self.now.runs.now self.now.rank.now self.now.g i }
    {
        if self.g == 0 {
            return 1;
        }
        self.class_size(i)
    }

    // The weight of the window of n sites from site i: 0 where an earlier site starts an equal one, else how many are equal to it.
    pub fn weight_at(&self, n: usize, i: usize) -> u32
        requires { (i < length self.now.rank.now) × (i < length self.now.share.now) }
        ensures { result ≡ weight_at self.now n i }
    {
        let shared = usize::from(self.share[i]);
        if n <= shared {
            return 0;
        }
        self.new_weight(i)
    }
}
