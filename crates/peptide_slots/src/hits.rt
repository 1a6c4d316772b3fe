// What a rule hits.
ghost use Rattle.std.specs.Prelude.{◌≡◌, ◌<◌};
ghost use Rattle.peptide_slots.specs.Hits.{at_first, at_last, fill, hits_at};

// A rule that meets a peptide: its kind and letter, the peptide's position, and 128 x the rule's place in its list. Kind and
// position stay bytes of their records: `all_sites` speaks of any, and one that stands for nothing hits nothing.
#[derive(Clone, Copy)]
pub(crate) struct Rule {
    pub kind: u8,
    pub position: u8,
    pub letter: u8,
    pub base: u16,
}

impl Rule {
    // `^`, and `[` where the peptide starts its protein.
    pub(crate) fn at_first(self) -> bool
        ensures { result ≡ at_first self.kind self.position }
    {
        self.kind == 1 || self.kind == 3 && (self.position == 0 || self.position == 2)
    }

    // `$`, and `]` where the peptide ends its protein.
    // Not one function with `at_first`: three numbers as parameters would say less than the two names.
    pub(crate) fn at_last(self) -> bool
        ensures { result ≡ at_last self.kind self.position }
    {
        self.kind == 2 || self.kind == 4 && (self.position == 1 || self.position == 2)
    }

    // Whether a rule with a letter hits the residue x at place k of n.
    pub(crate) fn hits_at(self, n: usize, k: usize, x: u8) -> bool
        requires { k < 64 }
        ensures { result ≡ hits_at self.kind self.position self.letter n k x }
    {
        (self.letter != 0)
            & ((x == self.letter)
                & ((self.kind == 0)
                    | ((self.at_first() & (k == 0)) | (self.at_last() & (k + 1 == n)))))
    }
}

// An empty slot takes the id; a filled one is never overwritten.
pub(crate) fn filled(id: u8, old: u8) -> u8
    ensures { result ≡ fill id old }
{
    if old == 0 { id } else { old }
}
