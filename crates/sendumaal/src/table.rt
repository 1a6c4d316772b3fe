// The table of modifications.
ghost use Rattle.std.specs.Prelude.{◌≡◌, List, [], ◌∷◌};
ghost use Rattle.modification_table.specs.Tables.{insert_outcome};
ghost use Rattle.records.specs.Outcome.{outcome};
ghost use Rattle.sendumaal_calls.specs.Calls.{insert_call};

use sendumaal_calls::counted;

pub fn sendumaal_modification_id(
    table: &mut [u8],
    count: u32,
    mass: u32,
    name: u32,
    id: &mut u32,
    place: &mut usize,
) -> u32
    ensures { outcome result ((place.new ∷ []) ∷ (id.new ∷ []) ∷ table.new ∷ []) ≡ insert_call (insert_outcome table.old count mass name) id.old }
{
    counted(modification::insert(table, count, mass, name), id, place)
}
