// Rule texts, read and written.
ghost use Rattle.std.specs.Prelude.{◌≡◌, ℕ, List, [], ◌∷◌, ◌<◌, ◌≤◌, length, Err};
ghost use Rattle.std.specs.Result.{result_map_both};
ghost use Rattle.records.specs.Outcome.{outcome};
ghost use Rattle.records.specs.Room.{counted, singly};
ghost use Rattle.modification_kinds.specs.Specificities.{kind_of, specificity};
ghost use Rattle.modification_texts.specs.Texts.{first_wide, mark_of, mark_byte, letter_place, parsed_letter, parsed, write_outcome};

use letters::LetterSet;
use modification_kinds::Specificity;
use records::Refusal;

// The index of the first byte of 128 or more, or the length.
fn first_wide(text: &[u8]) -> usize
    ensures { result ≡ first_wide text.now }
{
    for (i, b) in text.iter().enumerate() {
        if *b >= 128 {
            return i;
        }
    }
    text.len()
}

// The rule that a first byte marks, with a letter or 0: a byte that is no mark is a residue.
fn marked(b: u8, letter: u8) -> Specificity
    ensures { result ≡ specificity (mark_of b) letter }
{
    match b {
        b'^' => Specificity::PeptideN(letter),
        b'$' => Specificity::PeptideC(letter),
        b'[' => Specificity::ProteinN(letter),
        b']' => Specificity::ProteinC(letter),
        _ => Specificity::Residue(letter),
    }
}

// Where the letter stands: behind the mark, or first.
fn letter_place(b: u8) -> usize
    ensures { result ≡ letter_place (mark_of b) }
{
    match b {
        b'^' | b'$' | b'[' | b']' => 1,
        _ => 0,
    }
}

// The letter at a place, as a capital, or 0 where the text ends there.
fn parse_letter(text: &[u8], at: usize, alphabet: LetterSet) -> Result<u8, Refusal>
    ensures { (kind : ℕ) → result_map_both (specificity kind) (λ why. why) result ≡ parsed_letter text.now kind at alphabet }
{
    if text.len() == at {
        return Ok(0);
    }
    let letter = records::byte_at(text, at);
    if alphabet.contains(letter) {
        Ok(letters::capital(letter))
    } else {
        Err(Refusal::Outside(at))
    }
}

// Reads a rule text against an alphabet.
pub fn parse(text: &[u8], alphabet: LetterSet) -> Result<Specificity, Refusal>
    ensures { result ≡ parsed text.now alphabet }
{
    if text.is_empty() {
        return Err(Refusal::EmptyText);
    }
    let wide = first_wide(text);
    if wide < text.len() {
        return Err(Refusal::Letter(wide));
    }
    let first = text[0];
    let at = letter_place(first);
    if at + 1 < text.len() {
        return Err(Refusal::LongText);
    }
    let letter = parse_letter(text, at, alphabet)?;
    Ok(marked(first, letter))
}

// The byte that marks a kind but a residue's.
fn mark_byte(rule: Specificity) -> u8
    ensures { result ≡ mark_byte (kind_of rule) }
{
    match rule {
        Specificity::PeptideN(_) => b'^',
        Specificity::PeptideC(_) => b'$',
        Specificity::ProteinN(_) => b'[',
        Specificity::Residue(_) | Specificity::ProteinC(_) => b']',
    }
}

// Stores what there is room for.
fn put_text(text: &[u8], out: &mut [u8]) -> Result<u32, Refusal>
    requires { length text.now ≤ 2 }
    ensures { outcome result (out.new ∷ []) ≡ counted 1 2 out.old (singly text.now) }
{
    records::put_at(out, 0, text);
    if out.len() < text.len() {
        return Err(Refusal::Room);
    }
    Ok(text.len() as u32)
}

// Writes a rule as a text.
pub fn write(rule: Specificity, out: &mut [u8]) -> Result<u32, Refusal>
    ensures { outcome result (out.new ∷ []) ≡ write_outcome rule out.old }
{
    let letter = rule.letter();
    if !modification_kinds::is_sound(rule.kind(), letter) {
        return Err(Refusal::Field(0));
    }
    if let Specificity::Residue(_) = rule {
        return put_text(&[letter], out);
    }
    if letter == 0 {
        return put_text(&[mark_byte(rule)], out);
    }
    put_text(&[mark_byte(rule), letter], out)
}
