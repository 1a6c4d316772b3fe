// The table of modifications: records of 8 bytes, a mass's bit pattern and a name's number.
ghost use Rattle.std.specs.Prelude.{◌≡◌, List, [], ◌∷◌, ◌+◌, ◌*◌, ◌/◌, ◌≤◌, ◌<◌, length};
ghost use Rattle.std.proofs.lemmas.List.Edits.{sets};
ghost use Rattle.std.specs.Float.{binary32};
ghost use Rattle.std.specs.Float.Ieee.{nan_bits};
ghost use Rattle.records.specs.Outcome.{outcome};
ghost use Rattle.modification_table.specs.Tables.{same_mass, first_equal, tested_table, entry_bytes, entered_outcome, insert_outcome};

use records::Refusal;

// What a record says.
#[derive(Clone, Copy)]
struct Entry {
    mass: u32,
    name: u32,
}

// A bit pattern of a not-a-number.
fn is_nan(a: u32) -> bool
    ensures { result ≡ nan_bits binary32 a }
{
    0x7f80_0000 < a % 0x8000_0000
}

// Equal as floats.
fn same_mass(a: u32, b: u32) -> bool
    ensures { result ≡ same_mass a b }
{
    if is_nan(a) {
        return false;
    }
    if is_nan(b) {
        return false;
    }
    f32::from_bits(a) == f32::from_bits(b)
}

// The index of the first of count records that has the mass and the name, or count.
fn first_equal(table: &[u8], entry: Entry, count: usize) -> usize
    requires { count ≤ 255 }
    ensures { result ≡ first_equal table.now entry.mass entry.name count }
{
    for i in 0..count {
        let at = i * 8;
        if same_mass(records::u32_at(table, at), entry.mass)
            & (records::u32_at(table, at + 4) == entry.name)
        {
            return i;
        }
    }
    count
}

// The tests before the table is searched.
fn test_table(table: &[u8], count: u32) -> Result<(), Refusal>
    ensures { result ≡ tested_table table.now count }
{
    if 255 < count {
        return Err(Refusal::Size);
    }
    let n = count as usize;
    if table.len() / 8 < n {
        Err(Refusal::Length)
    } else {
        Ok(())
    }
}

// Stores a record.
fn put_entry(table: &mut [u8], at: usize, entry: Entry)
    requires { at ≤ 2040 }
    ensures { table.new ≡ sets table.old at (entry_bytes entry.mass entry.name) }
{
    records::put_u32(table, at, entry.mass);
    records::put_u32(table, at + 4, entry.name);
}

// The id of the first equal record, or of a new one.
fn enter(table: &mut [u8], count: u32, entry: Entry) -> Result<u32, Refusal>
    requires { count ≤ 255 }
    ensures { outcome result (table.new ∷ []) ≡ entered_outcome table.old count entry.mass entry.name }
{
    let n = count as usize;
    let at = first_equal(table, entry, n);
    if at < n {
        let id = at as u32;
        return Ok(id + 1);
    }
    if n == 255 {
        return Err(Refusal::TableFull);
    }
    if table.len() / 8 <= n {
        return Err(Refusal::Room);
    }
    put_entry(table, n * 8, entry);
    Ok(count + 1)
}

// The id of a modification among the first count records of the table, to which it is appended where it is new.
pub fn insert(table: &mut [u8], count: u32, mass: u32, name: u32) -> Result<u32, Refusal>
    ensures { outcome result (table.new ∷ []) ≡ insert_outcome table.old count mass name }
{
    test_table(table, count)?;
    enter(table, count, Entry { mass, name })
}
