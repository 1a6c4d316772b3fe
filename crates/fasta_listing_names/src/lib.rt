// The first reading of a sequence file, which tells whether it is taken before anything is printed of it. Only fasta_listing calls these.
#![tactic(auto)]

mod reading;
mod saying;
mod steps;
mod tables;

pub use reading::read_names;
pub use saying::{name, say, too_large};
pub use steps::{Step, Stop, of_file};
pub use tables::{is_named, name_table};
