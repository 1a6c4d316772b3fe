// A catalogue of names alone, to be tested before anything else takes it; letters alone.
ghost use Rattle.std.specs.Prelude.{◌≡◌, [], ◌∷◌};
ghost use Rattle.records.specs.Outcome.{outcome};
ghost use Rattle.sendumaal.specs.NameCalls.{names_call, letters_call};

#[unsafe(no_mangle)]
pub extern "C" fn sendumaal_names_test(names: &[u8], place: &mut usize) -> u32
    ensures { outcome result ((place.new ∷ []) ∷ []) ≡ names_call names.now }
{
    sendumaal::sendumaal_names_test(names, place)
}

#[unsafe(no_mangle)]
pub extern "C" fn sendumaal_letters_test(letters: &[u8], place: &mut usize) -> u32
    ensures { outcome result ((place.new ∷ []) ∷ []) ≡ letters_call letters.now }
{
    sendumaal::sendumaal_letters_test(letters, place)
}
