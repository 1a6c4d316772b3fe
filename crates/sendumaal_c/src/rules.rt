// Rule texts and rule records.
ghost use Rattle.std.specs.Prelude.{◌≡◌, [], ◌∷◌, true, false};
ghost use Rattle.modification_texts.specs.Texts.{parsed};
ghost use Rattle.modification_rules.specs.Rules.{tested_rules, read_rule};
ghost use Rattle.records.specs.Outcome.{outcome};
ghost use Rattle.sendumaal_calls.specs.Calls.{set_of, parse_call, write_call, test_call, read_call, record_call};

#[unsafe(no_mangle)]
pub extern "C" fn sendumaal_rule_parse(
    text: &[u8],
    alphabet: u32,
    kind: &mut u32,
    letter: &mut u32,
    place: &mut usize,
) -> u32
    ensures { outcome result ((place.new ∷ []) ∷ (kind.new ∷ []) ∷ (letter.new ∷ []) ∷ []) ≡ parse_call (parsed text.now (set_of alphabet)) kind.old letter.old }
{
    sendumaal::sendumaal_rule_parse(text, alphabet, kind, letter, place)
}

#[unsafe(no_mangle)]
pub extern "C" fn sendumaal_variable_rules_test(rules: &[u8], place: &mut usize) -> u32
    ensures { outcome result ((place.new ∷ []) ∷ []) ≡ test_call (tested_rules false rules.now) }
{
    sendumaal::sendumaal_variable_rules_test(rules, place)
}

#[unsafe(no_mangle)]
pub extern "C" fn sendumaal_fixed_rules_test(rules: &[u8], place: &mut usize) -> u32
    ensures { outcome result ((place.new ∷ []) ∷ []) ≡ test_call (tested_rules true rules.now) }
{
    sendumaal::sendumaal_fixed_rules_test(rules, place)
}

#[unsafe(no_mangle)]
pub extern "C" fn sendumaal_rule_write(
    kind: u32,
    letter: u32,
    out: &mut [u8],
    count: &mut u32,
    place: &mut usize,
) -> u32
    ensures { outcome result ((place.new ∷ []) ∷ (count.new ∷ []) ∷ out.new ∷ []) ≡ write_call kind letter out.old count.old }
{
    sendumaal::sendumaal_rule_write(kind, letter, out, count, place)
}

#[unsafe(no_mangle)]
pub extern "C" fn sendumaal_rule_read(
    rules: &[u8],
    index: usize,
    kind: &mut u32,
    letter: &mut u32,
    id: &mut u32,
    limit: &mut u32,
    place: &mut usize,
) -> u32
    ensures { outcome result ((place.new ∷ []) ∷ (kind.new ∷ []) ∷ (letter.new ∷ []) ∷ (id.new ∷ []) ∷ (limit.new ∷ []) ∷ []) ≡ read_call (read_rule rules.now index) kind.old letter.old id.old limit.old }
{
    sendumaal::sendumaal_rule_read(rules, index, kind, letter, id, limit, place)
}

#[unsafe(no_mangle)]
pub extern "C" fn sendumaal_rule_record(
    kind: u32,
    letter: u32,
    id: u32,
    limit: u32,
    out: &mut [u8],
    place: &mut usize,
) -> u32
    ensures { outcome result ((place.new ∷ []) ∷ out.new ∷ []) ≡ record_call kind letter id limit out.old }
{
    sendumaal::sendumaal_rule_record(kind, letter, id, limit, out, place)
}
