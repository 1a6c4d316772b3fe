// Numbers that stand for an enzyme.
ghost use Rattle.std.specs.Prelude.{◌≡◌, List, [], ◌∷◌};
ghost use Rattle.records.specs.Outcome.{outcome};
ghost use Rattle.sendumaal_calls.specs.DigestCalls.{is_enzyme, kind_numbered, side_numbered, enzyme_numbered, field_call};

use crate::telling::told;
use enzyme_cuts::{Enzyme, Kind, Side};
use letters::LetterSet;
use records::Refusal;

// Whether numbers stand for a kind, a side and a flag.
pub fn is_enzyme(kind: u32, side: u32, semi: u32) -> bool
    ensures { result ≡ is_enzyme kind side semi }
{
    (kind <= 2) & (side <= 1) & (semi <= 1)
}

fn kind_numbered(kind: u32, cleave: u32) -> Kind
    ensures { result ≡ kind_numbered kind cleave }
{
    match kind {
        1 => Kind::End,
        2 => Kind::Set(LetterSet { mask: cleave }),
        _ => Kind::None,
    }
}

fn side_numbered(side: u32) -> Side
    ensures { result ≡ side_numbered side }
{
    if side == 1 { Side::N } else { Side::C }
}

// No Option in place of `is_enzyme`: what the tests find with any numbers is told before that one of them stands for nothing.
pub fn enzyme_numbered(kind: u32, cleave: u32, skip: u32, side: u32, semi: u32) -> Enzyme
    ensures { result ≡ enzyme_numbered kind cleave skip side semi }
{
    Enzyme {
        kind: kind_numbered(kind, cleave),
        skip: LetterSet { mask: skip },
        side: side_numbered(side),
        semi: semi == 1,
    }
}

// The refusal that the tests found, or that of the enzyme's own fields.
pub fn told_field(found: Result<(), Refusal>, place: &mut usize) -> u32
    ensures { outcome result ((place.new ∷ []) ∷ []) ≡ field_call found }
{
    told(records::and_then(found, Err(Refusal::Field(0))), place)
}
