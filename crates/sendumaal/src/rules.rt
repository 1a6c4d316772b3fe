// Rule texts and rule records.
ghost use Rattle.std.specs.Prelude.{◌≡◌, List, [], ◌∷◌, true, false};
ghost use Rattle.modification_texts.specs.Texts.{parsed};
ghost use Rattle.modification_rules.specs.Rules.{tested_rules, read_rule};
ghost use Rattle.records.specs.Outcome.{outcome};
ghost use Rattle.sendumaal_calls.specs.Calls.{set_of, parse_call, write_call, test_call, read_call, record_call};

use letters::LetterSet;
use records::Refusal;
use sendumaal_calls::{counted, refused, rule_numbered, told};

pub fn sendumaal_rule_parse(
    text: &[u8],
    alphabet: u32,
    kind: &mut u32,
    letter: &mut u32,
    place: &mut usize,
) -> u32
    ensures { outcome result ((place.new ∷ []) ∷ (kind.new ∷ []) ∷ (letter.new ∷ []) ∷ []) ≡ parse_call (parsed text.now (set_of alphabet)) kind.old letter.old }
{
    let answer = modification::parse(text, LetterSet { mask: alphabet });
    if let Ok(on) = answer {
        *kind = u32::from(on.kind());
        *letter = u32::from(on.letter());
    }
    told(answer, place)
}

pub fn sendumaal_variable_rules_test(rules: &[u8], place: &mut usize) -> u32
    ensures { outcome result ((place.new ∷ []) ∷ []) ≡ test_call (tested_rules false rules.now) }
{
    told(modification::test_rules(rules, false), place)
}

pub fn sendumaal_fixed_rules_test(rules: &[u8], place: &mut usize) -> u32
    ensures { outcome result ((place.new ∷ []) ∷ []) ≡ test_call (tested_rules true rules.now) }
{
    told(modification::test_rules(rules, true), place)
}

pub fn sendumaal_rule_write(
    kind: u32,
    letter: u32,
    out: &mut [u8],
    count: &mut u32,
    place: &mut usize,
) -> u32
    ensures { outcome result ((place.new ∷ []) ∷ (count.new ∷ []) ∷ out.new ∷ []) ≡ write_call kind letter out.old count.old }
{
    match rule_numbered(kind, letter, 0, 0) {
        Some(rule) => counted(modification::write(rule.on, out), count, place),
        None => refused(Refusal::Field(0), place),
    }
}

pub fn sendumaal_rule_read(
    rules: &[u8],
    index: usize,
    kind: &mut u32,
    letter: &mut u32,
    id: &mut u32,
    limit: &mut u32,
    place: &mut usize,
) -> u32
    ensures { outcome result ((place.new ∷ []) ∷ (kind.new ∷ []) ∷ (letter.new ∷ []) ∷ (id.new ∷ []) ∷ (limit.new ∷ []) ∷ []) ≡ read_call (read_rule rules.now index) kind.old letter.old id.old limit.old }
{
    let answer = modification::read_rule(rules, index);
    if let Ok(rule) = answer {
        *kind = u32::from(rule.on.kind());
        *letter = u32::from(rule.on.letter());
        *id = u32::from(rule.id);
        *limit = rule.limit;
    }
    told(answer, place)
}

pub fn sendumaal_rule_record(
    kind: u32,
    letter: u32,
    id: u32,
    limit: u32,
    out: &mut [u8],
    place: &mut usize,
) -> u32
    ensures { outcome result ((place.new ∷ []) ∷ out.new ∷ []) ≡ record_call kind letter id limit out.old }
{
    match rule_numbered(kind, letter, id, limit) {
        Some(rule) => told(modification::write_rule(rule, out), place),
        None => refused(Refusal::Field(0), place),
    }
}
