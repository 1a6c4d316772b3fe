// The samples after a record was linked in.
ghost use Rattle.std.specs.Prelude.{◌≡◌, false, ◌-◌, ◌*◌, ◌≤◌, ◌<◌, length};
ghost use Rattle.enzyme_search.specs.Marks.{Chained, SamplesListed};
ghost use Rattle.enzyme_samples.specs.Ready.{Noted};

use crate::offering::Run;

// Whether there are as many samples as there may be. Making way for one more costs as many moves as there are samples, but
// only once in limit / 2 records, and a search limit / 2 comparisons: so they are no more than 16 times the limit's square.
fn crowded(room: usize, samples: usize, limit: usize) -> bool
    ensures { result ≡ false → samples < room }
{
    if room <= samples {
        return true;
    }
    if 1024 <= limit {
        return false;
    }
    let some = limit + 1;
    some <= samples / (16 * some)
}

// There are `size` records from sample j on: where that is the limit, a sample more or, if there are many, every second one
// goes and the limit is twice as high. So from a sample to the next there are fewer records than the limit, and a search
// follows no more links than that; nothing rests on it, and it is not proved. 777,000 records of 60,000 letters came to a
// limit of 64 with 65,536 marks.
fn settle(letters: &[u8], out: &[u8], marks: &mut [u32], run: Run, j: usize, size: u32) -> Run
    requires { (20 * run.count ≤ length out.now) × (run.count ≤ 1048576) × SamplesListed run.count run.head out.now marks.old run.samples × (j < run.samples) }
    ensures { Noted run out.now marks.new result }
{
    if (size as usize) < run.limit {
        return run;
    }
    if crowded(marks.len() / 3, run.samples, run.limit) {
        let fewer = enzyme_marks::thin(marks, run.samples);
        let limit = run.limit.saturating_mul(2);
        return Run {
            samples: fewer,
            limit,
            ..run
        };
    }
    let more = enzyme_marks::split(
        letters,
        out,
        marks,
        run.count,
        run.head,
        run.samples,
        j,
        size,
    );
    Run {
        samples: more,
        ..run
    }
}

// A record whose letters have the head `head` was linked in behind sample k, numbered from 1, or before all for 0.
pub(crate) fn note(
    letters: &[u8],
    out: &[u8],
    marks: &mut [u32],
    run: Run,
    k: usize,
    head: u32,
) -> Run
    requires { (20 * run.count ≤ length out.now) × (run.count ≤ 1048576) × Chained run.count run.head out.now × SamplesListed run.count run.head out.now marks.old run.samples × (k ≤ run.samples) }
    ensures { Noted run out.now marks.new result }
{
    if marks.len() < 3 {
        return run;
    }
    if run.head == 0 {
        return run;
    }
    let samples = enzyme_marks::mark_first(marks, run.head, run.samples, k, head);
    let j = k.saturating_sub(1);
    let size = enzyme_marks::count_one(marks, j);
    let now = Run { samples, ..run };
    settle(letters, out, marks, now, j, size)
}
