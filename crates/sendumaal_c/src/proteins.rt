// Groups of proteins, and the report line of a peptide.
ghost use Rattle.std.specs.Prelude.{◌≡◌, [], ◌∷◌};
ghost use Rattle.records.specs.Outcome.{outcome};
ghost use Rattle.sendumaal.specs.ProteinCalls.{proteins_call, line_call};

#[unsafe(no_mangle)]
pub extern "C" fn sendumaal_group_proteins(
    pairs: &[u8],
    flags: &[u8],
    peptides: u32,
    proteins: u32,
    work: &mut [u32],
    edges: &mut [u8],
    members: &mut [u8],
    groups: &mut u32,
    metas: &mut u32,
    edge_count: &mut u32,
    member_count: &mut u32,
    place: &mut usize,
) -> u32
    ensures { outcome result ((place.new ∷ []) ∷ (groups.new ∷ []) ∷ (metas.new ∷ []) ∷ (edge_count.new ∷ []) ∷ (member_count.new ∷ []) ∷ work.new ∷ edges.new ∷ members.new ∷ []) ≡ proteins_call (record { pairs = pairs.entry.now; flags = flags.now; peptides = peptides; proteins = proteins; work = work.old; edges = edges.old; members = members.old; groups = groups.old; metas = metas.old; edge_count = edge_count.old; member_count = member_count.old }) }
{
    sendumaal::sendumaal_group_proteins(
        pairs,
        flags,
        peptides,
        proteins,
        work,
        edges,
        members,
        groups,
        metas,
        edge_count,
        member_count,
        place,
    )
}

#[unsafe(no_mangle)]
pub extern "C" fn sendumaal_report_line(
    names: &[u8],
    members: &[u8],
    marks: &[u8],
    proteins: &[u32],
    decoy: u32,
    tag: &[u8],
    generated: u32,
    line: &mut [u8],
    bytes: &mut u32,
    groups: &mut u32,
    place: &mut usize,
) -> u32
    ensures { outcome result ((place.new ∷ []) ∷ (bytes.new ∷ []) ∷ (groups.new ∷ []) ∷ line.new ∷ []) ≡ line_call (record { names = names.entry.now; members = members.now; marks = marks.now; proteins = proteins.now; decoy = decoy; tag = tag.now; generated = generated; line = line.old; bytes = bytes.old; groups = groups.old }) }
{
    sendumaal::sendumaal_report_line(
        names, members, marks, proteins, decoy, tag, generated, line, bytes, groups, place,
    )
}
