// A catalogue: names in a row.
ghost use Rattle.std.specs.Prelude.{◌≡◌, [], ◌∷◌, ◌+◌, ◌≤◌, ◌<◌, length};
ghost use Rattle.catalogue_repeats.specs.Repeating.{cleared};
ghost use Rattle.records.specs.Outcome.{outcome};
ghost use Rattle.records.specs.Search.{seek};
ghost use Rattle.sorting_spec.specs.Joined.{name_of};
ghost use Rattle.catalogue_spec.specs.Names.{name_count, too_many_names, whole_names, is_name, bad_name, names_tested, catalogue_tested};
ghost use Rattle.catalogue_names.specs.NamesIn.{names_outcome};
ghost use Rattle.catalogue_spec.specs.NameLaws.{lower_of};

use catalogue_name::is_name;
use catalogue_repeats::{first_repeat, repeat_over};
use records::Refusal;

// How many names there are; a part of a record is none.
pub fn name_count(names: &[u8]) -> usize
    ensures { result ≡ name_count names.now }
{
    names.len() / 64
}

// 1: more than 65,536 names.
pub fn too_many_names(names: &[u8]) -> bool
    ensures { result ≡ too_many_names names.now }
{
    65536 < name_count(names)
}

// 8 unless the length is whole records.
pub fn are_whole_names(names: &[u8]) -> bool
    ensures { result ≡ whole_names names.now }
{
    names.len() % 64 == 0
}

fn is_name_at(names: &[u8], i: usize) -> bool
    requires { i < name_count names.now }
    ensures { result ≡ is_name (name_of names.now i) }
{
    let from = i * 64;
    is_name(&names[from..from + 64])
}

// The first record that is no name, or their number.
fn first_bad_name(names: &[u8]) -> usize
    ensures { result ≡ seek (bad_name names.now) 0 (name_count names.now) }
{
    let n = name_count(names);
    for i in 0..n {
        if !is_name_at(names, i) {
            return i;
        }
    }
    n
}

// What the first bad name and the first that repeats tell of n names: the lower of the two.
fn told(bad: usize, again: usize, n: usize) -> Result<(), Refusal>
    ensures { result ≡ lower_of bad again n }
{
    if again < bad {
        return Err(Refusal::Repeat(again));
    }
    if bad < n {
        return Err(Refusal::Name(bad));
    }
    Ok(())
}

// The contents, with a table of the call's own.
fn contents_tested(names: &[u8]) -> Result<(), Refusal>
    requires { name_count names.now ≤ 65536 }
    ensures { result ≡ names_tested names.now }
{
    let bad = first_bad_name(names);
    let again = first_repeat(names);
    told(bad, again, name_count(names))
}

// The same with a table that is lent.
fn contents_over(names: &[u8], tab: &mut [u32]) -> Result<(), Refusal>
    requires { (name_count names.now ≤ 65536) × (name_count names.now + name_count names.now ≤ length tab.old) }
    ensures { (result ≡ names_tested names.now) × (tab.new ≡ cleared (name_count names.now) tab.old) }
{
    let bad = first_bad_name(names);
    let again = repeat_over(names, tab);
    told(bad, again, name_count(names))
}

// The tests of a catalogue: 1, 8, and 12 or 13 at the lowest place.
pub fn names_tested(names: &[u8]) -> Result<(), Refusal>
    ensures { result ≡ catalogue_tested names.now }
{
    if too_many_names(names) {
        return Err(Refusal::Size);
    }
    if !are_whole_names(names) {
        return Err(Refusal::Length);
    }
    contents_tested(names)
}

// The same tests with a table that is lent, so that the call takes little stack: two numbers a name are used, and are zero at the
// end. A table that is too short is not used.
pub fn names_tested_in(names: &[u8], tab: &mut [u32]) -> Result<(), Refusal>
    ensures { outcome result (tab.new ∷ []) ≡ names_outcome names.now tab.old }
{
    if too_many_names(names) {
        return Err(Refusal::Size);
    }
    if !are_whole_names(names) {
        return Err(Refusal::Length);
    }
    let n = name_count(names);
    if n + n <= tab.len() {
        contents_over(names, tab)
    } else {
        contents_tested(names)
    }
}
