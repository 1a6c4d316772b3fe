// Where the sites of a knife start. Only crates of this repository call this.
#![tactic(auto)]

mod scan;

pub use scan::sites;
