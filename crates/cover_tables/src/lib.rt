// Where the tables of the walk by levels stand; what they hold, and what each step of the walk does to them, stands in specs.
#![tactic(auto)]

mod areas;
mod stretches;

pub use areas::Areas;
pub use stretches::{Stretch, size_at, stretch_at};
