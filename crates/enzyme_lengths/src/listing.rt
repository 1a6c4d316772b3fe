// The ranges of "none" as records.
ghost use Rattle.std.specs.Prelude.{◌≡◌, ◌+◌, ◌-◌, ◌%◌, ◌≤◌, ◌<◌, min, length};
ghost use Rattle.enzyme_cuts.specs.Cutting.{starting, of_length, none_sites};
ghost use Rattle.enzyme_keep.specs.Steps.{after, offers, among};
ghost use Rattle.enzyme_blocks.specs.Blocks.{Above, Blocked};
ghost use Rattle.enzyme_starts.specs.Longest.{Longests};
ghost use Rattle.enzyme_starts.specs.Tiers.{TellsFrom};
ghost use Rattle.enzyme_lengths.specs.Listing.{chosen_of, Positioned};
ghost use Rattle.enzyme_lengths.specs.Reading.{ToldBy};

use crate::tables::Tables;
use crate::telling::times_where;
use enzyme_blocks::{block_end, fill_least};
use enzyme_keep::Terms;
use records::wide;

// Writes the new ranges of a length that start from `from` to `to`, all of which have one position.
fn list_placed(
    tables: &Tables,
    head: &mut [u16],
    len: usize,
    position: u8,
    protein: u32,
    from: usize,
    to: usize,
    out: &mut [u8],
    count: usize,
) -> Option<usize>
    requires { (to + len ≤ length tables.now.letters.now + 1) × (0 < len) × ToldBy tables.now len head.old × Positioned (length tables.now.letters.now) len position from to }
    ensures { (after result out.new ≡ chosen_of tables.now.letters.now protein (starting len from (to - from)) count out.old) × ToldBy tables.now len head.new }
{
    let mut k = count;
    for a in from..to {
        let new = usize::from(tables.longest[a]) < len;
        let times = times_where(new, tables, head, a, len);
        k = enzyme_keep::write_placed(new, a, a + len, 0, 0, position, protein, times, out, k)?;
    }
    Some(k)
}

// Where those of the starts from `from` to `to` end whose ranges do not end with the protein: before the last one, or with it.
fn inner_end(n: usize, len: usize, from: usize, to: usize) -> usize
    requires { (n ≤ 65536) × (0 < from) × (from ≤ to) × (to + len ≤ n + 1) }
    ensures { (from ≤ result) × (result ≤ to) × Positioned n len 3 from result × Positioned n len 1 result to }
{
    if (from < to) & (n < to + len) {
        to - 1
    } else {
        to
    }
}

// Writes the new ranges of a length that start from `from`, which is not the first start, to `to`: their position is 3, and at the end 1.
fn list_later(
    tables: &Tables,
    head: &mut [u16],
    len: usize,
    protein: u32,
    from: usize,
    to: usize,
    out: &mut [u8],
    count: usize,
) -> Option<usize>
    requires { (to + len ≤ length tables.now.letters.now + 1) × (0 < len) × ToldBy tables.now len head.old × (0 < from) × (from ≤ to) }
    ensures { (after result out.new ≡ chosen_of tables.now.letters.now protein (starting len from (to - from)) count out.old) × ToldBy tables.now len head.new }
{
    let end = inner_end(tables.letters.len(), len, from, to);
    let k = list_placed(tables, head, len, 3, protein, from, end, out, count)?;
    list_placed(tables, head, len, 1, protein, end, to, out, k)
}

// Writes the new ranges of a length that start from `from` to `to`; the first start stands apart.
fn list_starts(
    tables: &Tables,
    head: &mut [u16],
    len: usize,
    protein: u32,
    from: usize,
    to: usize,
    out: &mut [u8],
    count: usize,
) -> Option<usize>
    requires { (to + len ≤ length tables.now.letters.now + 1) × (0 < len) × ToldBy tables.now len head.old }
    ensures { (after result out.new ≡ chosen_of tables.now.letters.now protein (starting len from (to - from)) count out.old) × ToldBy tables.now len head.new }
{
    if to <= from {
        return Some(count);
    }
    let second = from.max(1);
    let position = enzyme_keep::position(0, len, tables.letters.len());
    let k = list_placed(
        tables, head, len, position, protein, from, second, out, count,
    )?;
    list_later(tables, head, len, protein, second, to, out, k)
}

// The same, where no start shares less than `least`: with a length up to that none is new, and none is looked at.
fn list_block(
    tables: &Tables,
    head: &mut [u16],
    least: usize,
    len: usize,
    protein: u32,
    from: usize,
    to: usize,
    out: &mut [u8],
    count: usize,
) -> Option<usize>
    requires { (to + len ≤ length tables.now.letters.now + 1) × Above tables.now.longest.now from (min to (length tables.now.letters.now)) least × (0 < len) × ToldBy tables.now len head.old }
    ensures { (after result out.new ≡ chosen_of tables.now.letters.now protein (starting len from (to - from)) count out.old) × ToldBy tables.now len head.new }
{
    if len <= least {
        return Some(count);
    }
    list_starts(tables, head, len, protein, from, to, out, count)
}

// Writes the new ranges of a length that start from `from` to `to`, block by block.
fn list_blocks(
    tables: &Tables,
    head: &mut [u16],
    least: &[u32],
    len: usize,
    protein: u32,
    from: usize,
    to: usize,
    out: &mut [u8],
    count: usize,
) -> Option<usize>
    requires { (to + len ≤ length tables.now.letters.now + 1) × Blocked (length tables.now.letters.now) tables.now.longest.now least.now × (from % 64 ≡ 0) × (0 < len) × ToldBy tables.now len head.old }
    ensures { (after result out.new ≡ chosen_of tables.now.letters.now protein (starting len from (to - from)) count out.old) × ToldBy tables.now len head.new }
{
    let mut k = count;
    for b in from / 64..to.div_ceil(64) {
        let a = 64 * b;
        let end = block_end(a, 64, to);
        let floor = wide(least[b]);
        k = list_block(tables, head, floor, len, protein, a, end, out, k)?;
    }
    Some(k)
}

// The same of a great block: with a length up to its least none is new, and none of its blocks is looked at.
fn list_great(
    tables: &Tables,
    head: &mut [u16],
    least: &[u32],
    len: usize,
    protein: u32,
    from: usize,
    to: usize,
    out: &mut [u8],
    count: usize,
) -> Option<usize>
    requires { (to + len ≤ length tables.now.letters.now + 1) × Blocked (length tables.now.letters.now) tables.now.longest.now least.now × (from % 4096 ≡ 0) × (from < to) × (to ≤ from + 4096) × (0 < len) × ToldBy tables.now len head.old }
    ensures { (after result out.new ≡ chosen_of tables.now.letters.now protein (starting len from (to - from)) count out.old) × ToldBy tables.now len head.new }
{
    let floor = wide(least[1024 + from / 4096]);
    if len <= floor {
        return Some(count);
    }
    list_blocks(tables, head, least, len, protein, from, to, out, count)
}

// Writes the new ranges of a length, great block by great block.
fn list_length(
    tables: &Tables,
    head: &mut [u16],
    least: &[u32],
    len: usize,
    protein: u32,
    out: &mut [u8],
    count: usize,
) -> Option<usize>
    requires { (len ≤ length tables.now.letters.now) × Blocked (length tables.now.letters.now) tables.now.longest.now least.now × (0 < len) × ToldBy tables.now len head.old }
    ensures { (after result out.new ≡ chosen_of tables.now.letters.now protein (of_length (length tables.now.letters.now) len) count out.old) × ToldBy tables.now len head.new }
{
    let starts = tables.letters.len() + 1 - len;
    let mut k = count;
    for b in 0..starts.div_ceil(4096) {
        let a = 4096 * b;
        let to = block_end(a, 4096, starts);
        k = list_great(tables, head, least, len, protein, a, to, out, k)?;
    }
    Some(k)
}

// Writes the new ranges of every length from minimum to maximum; no length and a length above the number of letters have none.
fn list_lengths(
    tables: &Tables,
    head: &mut [u16],
    least: &[u32],
    terms: Terms,
    out: &mut [u8],
) -> Option<usize>
    requires { (terms.maximum ≤ 65536) × Blocked (length tables.now.letters.now) tables.now.longest.now least.now × ToldBy tables.now terms.minimum head.old }
    ensures { after result out.new ≡ chosen_of tables.now.letters.now terms.protein (none_sites (length tables.now.letters.now) terms.minimum terms.maximum) 0 out.old }
{
    let n = tables.letters.len() as u32;
    let top = terms.maximum.min(n);
    let mut k = 0;
    for len in terms.minimum.max(1)..top + 1 {
        k = list_length(tables, head, least, wide(len), terms.protein, out, k)?;
    }
    Some(k)
}

// Writes the digests of "none". longest has for each start the longest stretch that it shares with an earlier one; next, size and head
// tell how many starts show a range's letters, and head is used up. least holds the least of longest in each block on the way.
pub fn list_measured(
    letters: &[u8],
    longest: &[u16],
    next: &[u16],
    size: &[u16],
    head: &mut [u16],
    terms: Terms,
    out: &mut [u8],
    least: &mut [u32],
) -> Option<usize>
    requires { (length letters.now ≤ 65536) × (terms.maximum ≤ 65536) × (length letters.now ≤ length longest.now) × (length letters.now ≤ length next.now) × (length letters.now ≤ length size.now) × (length letters.now ≤ length head.old) × (1040 ≤ length least.old) × Longests letters.now longest.now × TellsFrom terms.minimum letters.now longest.now next.now size.now head.old }
    ensures { after result out.new ≡ offers letters.now terms (among letters.now (none_sites (length letters.now) terms.minimum terms.maximum)) (none_sites (length letters.now) terms.minimum terms.maximum) 0 out.old }
{
    fill_least(longest, letters.len(), least);
    let tables = Tables {
        letters,
        longest,
        next,
        size,
    };
    list_lengths(&tables, head, least, terms, out)
}
