// The tests of a grouping, in document 01's order.
ghost use Rattle.std.specs.Prelude.{◌≡◌, false};
ghost use Rattle.protein_groups_tests.specs.Testing.{too_large, uneven, needed, pairs_tested, flags_tested, tested};
ghost use Rattle.records.specs.Tested.{and_then};

use cover_edges::{first_bad_edge, first_bad_mark};
use records::{Refusal, field_tested};

// What a grouping is asked of: pairs, a decoy flag for each peptide, and how many peptides and proteins there are.
#[derive(Clone, Copy)]
pub struct Asked<'a> {
    pub pairs: &'a [u8],
    pub flags: &'a [u8],
    pub peptides: u32,
    pub proteins: u32,
}

impl<'a> Asked<'a> {
    fn is_too_large(&self) -> bool
        ensures { result ≡ too_large self.now.pairs.now self.now.peptides self.now.proteins }
    {
        (1048576 < self.pairs.len() / 8) | (262144 < self.peptides) | (65536 < self.proteins)
    }

    fn is_uneven(&self) -> bool
        ensures { result ≡ uneven self.now.pairs.now self.now.flags.now self.now.peptides }
    {
        let count = self.peptides as usize;
        !((self.pairs.len() % 8 == 0) & (self.flags.len() == count))
    }

    // How many numbers of work memory a call takes.
    fn work_needed(&self) -> usize
        ensures { result ≡ needed self.now.pairs.now self.now.peptides self.now.proteins }
    {
        let left = self.proteins as usize;
        let right = self.peptides as usize;
        8 * left + 4 * right + 6 * (self.pairs.len() / 8)
    }

    fn pairs_tested(&self) -> Result<(), Refusal>
        requires { too_large self.now.pairs.now self.now.peptides self.now.proteins ≡ false }
        ensures { result ≡ pairs_tested self.now.pairs.now self.now.peptides self.now.proteins }
    {
        let n = self.pairs.len() / 8;
        let peptides = self.peptides as usize;
        let proteins = self.proteins as usize;
        let bad = first_bad_edge(self.pairs, peptides, proteins);
        field_tested(bad, n)
    }

    fn flags_tested(&self) -> Result<(), Refusal>
        ensures { result ≡ flags_tested self.now.flags.now }
    {
        let bad = first_bad_mark(self.flags);
        field_tested(bad, self.flags.len())
    }

    // The pairs, and then the flags.
    fn contents_tested(&self) -> Result<(), Refusal>
        requires { too_large self.now.pairs.now self.now.peptides self.now.proteins ≡ false }
        ensures { result ≡ and_then (pairs_tested self.now.pairs.now self.now.peptides self.now.proteins) (flags_tested self.now.flags.now) }
    {
        self.pairs_tested()?;
        self.flags_tested()
    }

    // The first refusal that applies before the groups are made.
    pub fn tested(&self, words: usize) -> Result<(), Refusal>
        ensures { result ≡ tested self.now.pairs.now self.now.flags.now self.now.peptides self.now.proteins words }
    {
        if self.is_too_large() {
            return Err(Refusal::Size);
        }
        if self.is_uneven() {
            return Err(Refusal::Length);
        }
        if words < self.work_needed() {
            return Err(Refusal::Work);
        }
        self.contents_tested()
    }
}
