// A catalogue of names alone, to be tested before anything else takes it; letters alone.
ghost use Rattle.std.specs.Prelude.{◌≡◌, List, [], ◌∷◌};
ghost use Rattle.records.specs.Outcome.{outcome};
ghost use Rattle.sendumaal.specs.NameCalls.{names_call, letters_call};

use sendumaal_calls::told;

pub fn sendumaal_names_test(names: &[u8], place: &mut usize) -> u32
    ensures { outcome result ((place.new ∷ []) ∷ []) ≡ names_call names.now }
{
    told(catalogue::names_tested(names), place)
}

pub fn sendumaal_letters_test(letters: &[u8], place: &mut usize) -> u32
    ensures { outcome result ((place.new ∷ []) ∷ []) ≡ letters_call letters.now }
{
    told(catalogue::letters_tested(letters), place)
}
