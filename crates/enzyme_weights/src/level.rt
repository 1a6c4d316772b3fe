// What a level is read from.
ghost use Rattle.std.specs.Prelude.{◌≤◌, length};

// The tables of a level: the g sites that stand in the order and where their runs start; of each site its rank, and how many sites it
// shares with an earlier one.
#[derive(Clone, Copy)]
pub struct Level<'a> {
    pub order: &'a [u16],
    pub runs: &'a [u16],
    pub rank: &'a [u16],
    pub share: &'a [u8],
    pub g: usize,
    pub ghost places: { g ≤ length order.now },
    pub ghost starts: { g ≤ length runs.now },
    pub ghost few: { g ≤ 65536 },
}
