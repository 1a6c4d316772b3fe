// A sequence file of any size, read piece by piece into one buffer. Only fasta_listing and its parts call these.
#![tactic(auto)]

mod filling;
mod pieces;

pub use pieces::{Found, Window, buffer, next_piece, sum};
