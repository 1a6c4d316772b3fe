// Which groups an update touches: the groups and meta-peptides of both lists joined into parts, and the groups whose edges differ. No
// entries: only crates of this repository call these.
#![tactic(auto)]

mod mixing;
mod touching;

pub use mixing::renew;
