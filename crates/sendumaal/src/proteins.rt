// Groups of proteins, and the report line of a peptide.
ghost use Rattle.std.specs.Prelude.{◌≡◌, List, [], ◌∷◌};
ghost use Rattle.records.specs.Outcome.{outcome};
ghost use Rattle.sendumaal.specs.ProteinCalls.{are_flags, proteins_call, line_call};

use sendumaal_calls::{told, told_field};

pub fn sendumaal_group_proteins(
    pairs: &[u8],
    flags: &[u8],
    peptides: u32,
    proteins: u32,
    work: &mut [u32],
    edges: &mut [u8],
    members: &mut [u8],
    groups: &mut u32,
    metas: &mut u32,
    edge_count: &mut u32,
    member_count: &mut u32,
    place: &mut usize,
) -> u32
    ensures { outcome result ((place.new ∷ []) ∷ (groups.new ∷ []) ∷ (metas.new ∷ []) ∷ (edge_count.new ∷ []) ∷ (member_count.new ∷ []) ∷ work.new ∷ edges.new ∷ members.new ∷ []) ≡ proteins_call (record { pairs = pairs.entry.now; flags = flags.now; peptides = peptides; proteins = proteins; work = work.old; edges = edges.old; members = members.old; groups = groups.old; metas = metas.old; edge_count = edge_count.old; member_count = member_count.old }) }
{
    let answer = protein_groups::group_proteins(
        pairs, flags, peptides, proteins, work, edges, members,
    );
    if let Ok(sizes) = answer {
        *groups = sizes.groups;
        *metas = sizes.metas;
        *edge_count = sizes.edges;
        *member_count = sizes.members;
    }
    told(answer, place)
}

// Whether two numbers are flags.
fn are_flags(a: u32, b: u32) -> bool
    ensures { result ≡ are_flags a b }
{
    (a <= 1) & (b <= 1)
}

pub fn sendumaal_report_line(
    names: &[u8],
    members: &[u8],
    marks: &[u8],
    proteins: &[u32],
    decoy: u32,
    tag: &[u8],
    generated: u32,
    line: &mut [u8],
    bytes: &mut u32,
    groups: &mut u32,
    place: &mut usize,
) -> u32
    ensures { outcome result ((place.new ∷ []) ∷ (bytes.new ∷ []) ∷ (groups.new ∷ []) ∷ line.new ∷ []) ≡ line_call (record { names = names.entry.now; members = members.now; marks = marks.now; proteins = proteins.now; decoy = decoy; tag = tag.now; generated = generated; line = line.old; bytes = bytes.old; groups = groups.old }) }
{
    if are_flags(decoy, generated) {
        let answer = report_lines::report_line(
            names,
            members,
            marks,
            proteins,
            decoy == 1,
            tag,
            generated == 1,
            line,
        );
        if let Ok(report) = answer {
            *bytes = report.bytes;
            *groups = report.groups;
        }
        return told(answer, place);
    }
    told_field(
        report_lines::tested(names, members, marks, proteins, tag),
        place,
    )
}
