// The tests of a report line, in document 01's order.
ghost use Rattle.std.specs.Prelude.{◌≡◌, not};
ghost use Rattle.report_lines_tests.specs.Testing.{too_large, uneven, members_tested, marks_tested, first_bad_protein, list_tested, first_bad_tag_byte, tag_tested, lists_tested};
ghost use Rattle.records.specs.Tested.{and_then};
ghost use Rattle.catalogue_spec.specs.Names.{visible};

use records::{Refusal, field_tested};

pub fn too_large(names: &[u8], members: &[u8], marks: &[u8], list: &[u32]) -> bool
    ensures { result ≡ too_large names.now members.now marks.now list.now }
{
    catalogue_names::too_many_names(names)
        | (131072 < members.len() / 12)
        | (131072 < marks.len())
        | (1048576 < list.len())
}

pub fn is_uneven(names: &[u8], members: &[u8]) -> bool
    ensures { result ≡ uneven names.now members.now }
{
    !(catalogue_names::are_whole_names(names) & (members.len() % 12 == 0))
}

fn members_tested(members: &[u8], groups: usize, proteins: usize) -> Result<(), Refusal>
    ensures { result ≡ members_tested members.now groups proteins }
{
    let bad = protein_groups_members::first_bad_member(members, groups, proteins);
    field_tested(bad, members.len() / 12)
}

fn marks_tested(marks: &[u8]) -> Result<(), Refusal>
    ensures { result ≡ marks_tested marks.now }
{
    field_tested(cover_edges::first_bad_mark(marks), marks.len())
}

// The first protein of the list that has no name, or how many there are.
fn first_bad_protein(list: &[u32], proteins: usize) -> usize
    ensures { result ≡ first_bad_protein list.now proteins }
{
    for (i, protein) in list.iter().enumerate() {
        if proteins <= *protein as usize {
            return i;
        }
    }
    list.len()
}

fn list_tested(list: &[u32], proteins: usize) -> Result<(), Refusal>
    ensures { result ≡ list_tested list.now proteins }
{
    field_tested(first_bad_protein(list, proteins), list.len())
}

fn is_hidden(b: u8) -> bool
    ensures { result ≡ not (visible b) }
{
    !((33 <= b) & (b <= 126))
}

// The first byte of the tag that is not from 33 to 126, or how many there are.
fn first_bad_tag_byte(tag: &[u8]) -> usize
    ensures { result ≡ first_bad_tag_byte tag.now }
{
    for (i, b) in tag.iter().enumerate() {
        if is_hidden(*b) {
            return i;
        }
    }
    tag.len()
}

fn tag_tested(tag: &[u8]) -> Result<(), Refusal>
    ensures { result ≡ tag_tested tag.now }
{
    let bad = first_bad_tag_byte(tag);
    if (16 < tag.len()) | (bad < tag.len()) {
        return Err(Refusal::Name(0));
    }
    Ok(())
}

// What was found of the names, and then the other contents list by list: members, marks, list, tag.
pub fn lists_tested(
    named: Result<(), Refusal>,
    members: &[u8],
    marks: &[u8],
    list: &[u32],
    tag: &[u8],
    proteins: usize,
) -> Result<(), Refusal>
    ensures { result ≡ and_then named (lists_tested members.now marks.now list.now tag.now proteins) }
{
    named?;
    members_tested(members, marks.len(), proteins)?;
    marks_tested(marks)?;
    list_tested(list, proteins)?;
    tag_tested(tag)
}
