// Where the linked lists of so many edge records by their group stand in the work slice: the heads from `heads` on, one for each group,
// the nexts from `nexts` on. In front of them, from 0 on, stands a count for each meta-peptide.
#[derive(Clone, Copy)]
pub struct Links {
    pub groups: usize,
    pub metas: usize,
    pub records: usize,
    pub heads: usize,
    pub nexts: usize,
}
