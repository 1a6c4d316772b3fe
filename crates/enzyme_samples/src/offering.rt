// Ranges offered to the list of records.
// A range goes as the numbers of its record, and each buffer is lent on its own: the contracts say what became of each.
ghost use Rattle.std.specs.Prelude.{◌≡◌, [], ◌∷◌, ◌-◌, ◌≤◌, ◌<◌, get_or};
ghost use Rattle.enzyme_cuts.specs.Cutting.{range};
ghost use Rattle.enzyme_samples.specs.Ready.{run_started, weighted, ReadyOf, OffersOf};

use crate::noting::note;
use enzyme_keep::Terms;

// How many records there are, the first of the list, and how many samples of it there are: the first of them is the
// list's first, and from each to the next there are fewer than `limit` records; and whether there was no room for one more. No
// Option: where it is full, what is found counts still (`Offers.tells`).
#[derive(Clone, Copy)]
pub struct Run {
    pub count: usize,
    pub head: usize,
    pub samples: usize,
    pub limit: usize,
    pub full: bool,
}

// What ranges are offered of: the letters; for each start, the most letters that any other start may share with it; and what is
// wanted of a digest.
#[derive(Clone, Copy)]
pub struct Source<'a> {
    pub letters: &'a [u8],
    pub far: &'a [u32],
    pub terms: Terms,
}

// No record yet.
pub fn start_run() -> Run
    ensures { result ≡ run_started }
{
    Run {
        count: 0,
        head: 0,
        samples: 0,
        limit: 8,
        full: false,
    }
}

// The number at a place, 0 behind the end.
fn far_at(far: &[u32], at: usize) -> usize
    ensures { result ≡ get_or far.now at 0 }
{
    if at < far.len() { far[at] as usize } else { 0 }
}

// A range that is longer than what its start shares with any other is new: it is neither sought nor linked in.
fn write_range(
    source: &Source,
    a: usize,
    e: usize,
    missed: u8,
    semi: u8,
    times: u32,
    out: &mut [u8],
    marks: &[u32],
    run: Run,
) -> Run
    requires { ReadyOf source.now (weighted (range a e missed semi) times ∷ []) run out.old marks.now × (get_or source.now.far.now a 0 < e - a) }
    ensures { OffersOf source.now (weighted (range a e missed semi) times ∷ []) run out.old marks.now result out.new marks.now }
{
    let at = enzyme_list::write(
        source.letters,
        a,
        e,
        missed,
        semi,
        times,
        source.terms,
        out,
        run.count,
        run.head,
        run.full,
    );
    Run {
        count: at.count,
        head: at.head,
        full: at.full,
        ..run
    }
}

// Any other is sought, and linked in where it is new: from the last sample below it on.
fn seek_range(
    source: &Source,
    a: usize,
    e: usize,
    missed: u8,
    semi: u8,
    times: u32,
    out: &mut [u8],
    marks: &mut [u32],
    run: Run,
) -> Run
    requires { ReadyOf source.now (weighted (range a e missed semi) times ∷ []) run out.old marks.old × (e - a ≤ get_or source.now.far.now a 0) }
    ensures { OffersOf source.now (weighted (range a e missed semi) times ∷ []) run out.old marks.old result out.new marks.new }
{
    let head = enzyme_search::head_of(&source.letters[a..e]);
    let k = enzyme_search::last_below(
        source.letters,
        out,
        run.count,
        marks,
        run.samples,
        a,
        e,
        head,
    );
    let from = enzyme_search::sample(marks, k);
    let at = enzyme_list::offer(
        source.letters,
        a,
        e,
        missed,
        semi,
        times,
        source.terms,
        out,
        run.count,
        run.head,
        run.full,
        from,
    );
    let next = Run {
        count: at.count,
        head: at.head,
        full: at.full,
        ..run
    };
    if at.count == run.count {
        return next;
    }
    note(source.letters, out, marks, next, k, head)
}

// A record that has the letters a..e gets `times` more; where none has them, the length is wanted and there is room, their
// record is written, with that number.
pub fn offer_range(
    source: &Source,
    a: usize,
    e: usize,
    missed: u8,
    semi: u8,
    times: u32,
    out: &mut [u8],
    marks: &mut [u32],
    run: Run,
) -> Run
    requires { ReadyOf source.now (weighted (range a e missed semi) times ∷ []) run out.old marks.old }
    ensures { OffersOf source.now (weighted (range a e missed semi) times ∷ []) run out.old marks.old result out.new marks.new }
{
    if enzyme_keep::length_within(e - a, source.terms.minimum, source.terms.maximum) {
        if far_at(source.far, a) < e - a {
            return write_range(source, a, e, missed, semi, times, out, marks, run);
        }
        return seek_range(source, a, e, missed, semi, times, out, marks, run);
    }
    // Field by field: a copy of the whole would carry the bytes behind `full` along, and wait for them.
    Run {
        count: run.count,
        head: run.head,
        samples: run.samples,
        limit: run.limit,
        full: run.full,
    }
}
