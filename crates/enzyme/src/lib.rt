// Digestion: the digests of a protein, their reversal, and their letters.
#![tactic(auto)]

mod digesting;

pub use digest_groups::group_digests;
pub use digesting::digest;
pub use enzyme_cuts::{Enzyme, Kind, Side};
pub use enzyme_reversal::{digest_letters, reverse_letters, reverse_record};
pub use enzyme_spec::Settings;
pub use enzyme_tests::tested;
