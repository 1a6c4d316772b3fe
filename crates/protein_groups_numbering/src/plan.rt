// Where the tables of one grouping stand in one slice w, behind one another: from `things` on the things in their order, and from `runs` on
// the number of each one's run; from `bounds` on where the text of each thing below `kinds` begins, and where they all end; from `texts` on
// the texts, `count` numbers in all; and places for as many keys from `keys` on and values from `values` on.
#[derive(Clone, Copy)]
pub struct Plan {
    pub things: usize,
    pub runs: usize,
    pub bounds: usize,
    pub kinds: u32,
    pub texts: usize,
    pub keys: usize,
    pub values: usize,
    pub count: usize,
}
