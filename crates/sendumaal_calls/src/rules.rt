// Numbers that stand for a rule.
ghost use Rattle.std.specs.Prelude.{◌≡◌, if◌then◌else◌, Some, None};
ghost use Rattle.modification_kinds.specs.Specificities.{specificity};
ghost use Rattle.sendumaal_calls.specs.Calls.{is_rule};

use modification_kinds::specificity_of;
use modification_rules::Rule;

// The rule of a kind, a letter and an id, if numbers can be these.
pub fn rule_numbered(kind: u32, letter: u32, id: u32, limit: u32) -> Option<Rule>
    ensures { result ≡ if is_rule kind letter id then Some (record { on = specificity kind letter; id = id; limit = limit }) else None }
{
    if (kind <= 4) & (letter <= 255) & (id <= 255) {
        let on = specificity_of(kind as u8, letter as u8);
        return Some(Rule {
            on,
            id: id as u8,
            limit,
        });
    }
    None
}
