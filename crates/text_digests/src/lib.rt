// What the programs that list digests share: the settings on a line, a line for each record, and refusals. Only programs of this
// repository call these.
#![tactic(auto)]

mod page;
mod request;

pub use page::{print_all, refusal, refused};
pub use request::{Request, read_request};
