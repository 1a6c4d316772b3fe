// Which choices of sites make forms, and the listing of those forms.
#![tactic(auto)]

mod listing;
mod passing;

pub use listing::list_forms;
