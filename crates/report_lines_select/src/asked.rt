// What a report line is asked of.

// Names, members, and a mark for each group; the proteins of the peptide's list, and whether it is a decoy; the tag, and whether decoys are
// generated, so that their names take it.
#[derive(Clone, Copy)]
pub struct Asked<'a> {
    pub names: &'a [u8],
    pub members: &'a [u8],
    pub marks: &'a [u8],
    pub list: &'a [u32],
    pub decoy: bool,
    pub tag: &'a [u8],
    pub generated: bool,
}
