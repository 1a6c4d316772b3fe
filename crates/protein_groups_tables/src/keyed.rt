// The values of a plan by their keys.
ghost use Rattle.protein_groups_tables.specs.PlanLaws.{PlanKeyed, PlanSorted};

use protein_groups_numbering::Plan;
use records::wide;
use sorting_counting::{Places, sort_by_keys};

// Sorts the plan's values by their keys: those of each key are its text.
pub(crate) fn sort_values(w: &mut [u32], plan: Plan)
    requires { PlanKeyed w.old plan }
    ensures { PlanSorted plan w.old w.new }
{
    let kinds = wide(plan.kinds);
    let places = Places {
        keys: plan.keys,
        values: plan.values,
        count: plan.count,
        bounds: plan.bounds,
        kinds,
        sorted: plan.texts,
    };
    sort_by_keys(w, places, 0);
}
