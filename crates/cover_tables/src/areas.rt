// The slice w of a cover holds, in this order, for each group the edges that it has left, for each meta-peptide whether it is covered, for
// each group its mark; from `ge` on room to sort in; from `go` on where the list of each group begins, from `mo` on where that of each
// meta-peptide begins; from `gm` on the groups' lists of meta-peptides, from `mg` on the meta-peptides' lists of groups; and from `od` on the
// groups in their order.
#[derive(Clone, Copy)]
pub struct Areas {
    pub groups: usize,
    pub metas: usize,
    pub ge: usize,
    pub go: usize,
    pub mo: usize,
    pub gm: usize,
    pub mg: usize,
    pub od: usize,
}
