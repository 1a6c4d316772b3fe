// A small state stepped by value through the choices of n places, in lexicographic order.
ghost use Rattle.std.specs.Prelude.{◌≡◌, true, false, ◌++◌, ℕ, suc, ◌+◌, ◌-◌, ◌≤◌, ◌<◌, take, drop, get_or, IfSome, IfNone};
ghost use Rattle.lists.specs.Lists.{up_from};
ghost use Rattle.peptide_choices.specs.Steps.{begun_choice, stepped, successor};
ghost use Rattle.peptide_choices.specs.SuccessorLaws.{IsOne};

// A choice of n of m sites: at[0] < .. < at[n - 1] < m.
#[derive(Clone, Copy)]
pub struct Choice {
    pub at: [usize; 8],
    pub n: usize,
    pub m: usize,
}

// The last of the first e places that can still move.
fn movable(at: [usize; 8], e: usize, n: usize, m: usize) -> Option<usize>
    requires { (e ≤ n) × (n ≤ 8) }
    ensures found { IfSome result (λ i. (i < e) × (get_or at i 0 + (n - i) < m) × ((j : ℕ) → i < j → j < e → m ≤ get_or at j 0 + (n - j))) }
    ensures none { IfNone result ((j : ℕ) → j < e → m ≤ get_or at j 0 + (n - j)) }
{
    for i in (0..e).rev() {
        let a = at[i];
        if a < m && n - i < m - a {
            return Some(i);
        }
    }
    None
}

// Place i moves by one, and those after it follow it.
fn refilled(at: [usize; 8], i: usize, n: usize, m: usize) -> [usize; 8]
    requires { (i < n) × (n ≤ 8) × (get_or at i 0 + (n - i) < m) }
    ensures { result ≡ take i at ++ (up_from (suc (get_or at i 0)) (n - i) ++ drop n at) }
{
    let first = at[i] + 1;
    let mut out = at;
    for j in i..n {
        out[j] = first + (j - i);
    }
    out
}

impl Choice {
    // The first choice of n of m sites, or that there is none.
    pub fn first(n: usize, m: usize) -> Option<Choice>
        requires { n ≤ 8 }
        ensures { result ≡ begun_choice n m }
    {
        if m < n {
            return None;
        }
        let mut at = [0usize; 8];
        for i in 0..n {
            at[i] = i;
        }
        Some(Choice { at, n, m })
    }

    // Whether it is one of the choices of n of m sites.
    fn is_one(self) -> bool
        ensures { (result ≡ true → IsOne self) × (result ≡ false → IsOne self → ⊥) }
    {
        let mut low = 0;
        if 8 < self.n {
            return false;
        }
        for i in 0..self.n {
            let a = self.at[i];
            if a < low || self.m <= a {
                return false;
            }
            low = a + 1;
        }
        true
    }

    // The successor in lexicographic order among the choices of n of m sites, or that none is left.
    pub fn next(self) -> Option<Choice>
        ensures { result ≡ successor self }
    {
        if self.is_one() {
            return self.next_past(self.n);
        }
        None
    }

    // The successor that comes after all that begin with the first kept + 1 places: where those clash, no choice that
    // begins with them can pass. With kept of n or n - 1 it is the next choice.
    pub fn next_past(self, kept: usize) -> Option<Choice>
        requires { self.n ≤ 8 }
        ensures { result ≡ stepped self kept }
    {
        let n = self.n;
        let m = self.m;
        let e = kept.saturating_add(1).min(n);
        let i = movable(self.at, e, n, m)?;
        let at = refilled(self.at, i, n, m);
        Some(Choice { at, n, m })
    }
}
