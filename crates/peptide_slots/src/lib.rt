// What a peptide's arrays are made of: lent bytes, what rules hit, sites, forms, the reversal of the inner places.
#![tactic(auto)]

mod form;
mod hits;
mod mirror;
mod sites;
mod windows;

pub use form::{Form, bare, empty, fill_site, overlaid, put_form, with_all};
pub use mirror::{mirrored, zero_from};
pub use sites::{collect, collect_used, site_at};
pub use windows::{raised, window};
