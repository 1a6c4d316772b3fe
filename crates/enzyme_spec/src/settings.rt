// How many missed cleavages there may be, and the least and the greatest length of a digest.
#[derive(Clone, Copy)]
pub struct Settings {
    pub missed: u8,
    pub minimum: u32,
    pub maximum: u32,
}
