// Rule records of 8 bytes: kind, letter, id, zero, limit.
ghost use Rattle.std.specs.Prelude.{◌≡◌, List, [], ◌∷◌, ◌+◌, ◌*◌, ◌/◌, ◌≤◌, ◌<◌, length};
ghost use Rattle.std.proofs.lemmas.List.Edits.{sets};
ghost use Rattle.records.specs.Le.{le};
ghost use Rattle.records.specs.Outcome.{outcome};
ghost use Rattle.modification_rules.specs.Rules.{good_rule, rule_at, read_rule, first_bad_rule, most_rules, tested_length, tested_rules, rule_bytes, write_rule_outcome};

use modification_kinds::Specificity;
use records::Refusal;

#[derive(Clone, Copy)]
pub struct Rule {
    pub on: Specificity,
    pub id: u8,
    pub limit: u32,
}

// Whether record r is a rule.
fn is_good(rules: &[u8], r: usize, fixed: bool) -> bool
    requires { r * 8 + 8 ≤ length rules.now }
    ensures { result ≡ good_rule fixed rules.now r }
{
    let at = r * 8;
    let kind = records::byte_at(rules, at);
    let letter = records::byte_at(rules, at + 1);
    let id = records::byte_at(rules, at + 2);
    let zero = records::byte_at(rules, at + 3);
    let limit = records::u32_at(rules, at + 4);
    let sound = modification_kinds::is_sound(kind, letter);
    sound & !(id == 0) & (zero == 0) & (!fixed | (limit == 4294967295))
}

// The index of the first record that is no rule, or the number of whole records.
pub fn first_bad_rule(rules: &[u8], fixed: bool) -> usize
    ensures { result ≡ first_bad_rule fixed rules.now }
{
    let n = rules.len() / 8;
    for r in 0..n {
        if !is_good(rules, r, fixed) {
            return r;
        }
    }
    n
}

// How many rules a list may have.
fn most_rules(fixed: bool) -> usize
    ensures { result ≡ most_rules fixed }
{
    if fixed { 32 } else { 16 }
}

// Whether a list has at most as many rules as it may, in whole records.
fn test_length(rules: &[u8], fixed: bool) -> Result<(), Refusal>
    ensures { result ≡ tested_length fixed rules.now }
{
    if most_rules(fixed) < rules.len() / 8 {
        return Err(Refusal::Size);
    }
    if rules.len() % 8 == 0 {
        Ok(())
    } else {
        Err(Refusal::Length)
    }
}

// Tests a list of variable rules, at most 16, or of fixed ones, at most 32.
pub fn test_rules(rules: &[u8], fixed: bool) -> Result<(), Refusal>
    ensures { result ≡ tested_rules fixed rules.now }
{
    test_length(rules, fixed)?;
    let bad = first_bad_rule(rules, fixed);
    records::field_tested(bad, rules.len() / 8)
}

// Reads record r of a list of variable or of fixed rules.
pub fn read_rule(rules: &[u8], r: usize) -> Result<Rule, Refusal>
    ensures { result ≡ read_rule rules.now r }
{
    test_length(rules, true)?;
    if r < rules.len() / 8 && is_good(rules, r, false) {
        return Ok(rule_at(rules, r));
    }
    Err(Refusal::Field(r))
}

// What record r says.
fn rule_at(rules: &[u8], r: usize) -> Rule
    requires { r * 8 + 8 ≤ length rules.now }
    ensures { result ≡ rule_at rules.now r }
{
    let at = r * 8;
    let kind = records::byte_at(rules, at);
    let letter = records::byte_at(rules, at + 1);
    let on = modification_kinds::specificity_of(kind, letter);
    Rule {
        on,
        id: records::byte_at(rules, at + 2),
        limit: records::u32_at(rules, at + 4),
    }
}

// Stores the eight bytes of a rule.
fn put_rule(out: &mut [u8], rule: Rule)
    ensures { out.new ≡ sets out.old 0 (rule_bytes rule) }
{
    let on = rule.on;
    records::put_byte(out, 0, on.kind());
    records::put_byte(out, 1, on.letter());
    records::put_byte(out, 2, rule.id);
    records::put_byte(out, 3, 0);
    records::put_u32(out, 4, rule.limit);
}

// Writes a rule as a record.
pub fn write_rule(rule: Rule, out: &mut [u8]) -> Result<(), Refusal>
    ensures { outcome result (out.new ∷ []) ≡ write_rule_outcome rule out.old }
{
    let on = rule.on;
    if !modification_kinds::is_sound(on.kind(), on.letter()) || rule.id == 0 {
        return Err(Refusal::Field(0));
    }
    if out.len() < 8 {
        return Err(Refusal::Room);
    }
    put_rule(out, rule);
    Ok(())
}
