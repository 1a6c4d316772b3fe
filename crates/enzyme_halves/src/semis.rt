// A set with semi: each different range is looked at once, but for the parts of windows that stand before, for which those of the
// first stand. A range longer than what any other start shares is new; any other is sought in a list of the records so far, which rises by
// length and letters, and counted where it is found.
// Each table is lent on its own, for each step writes some of them and reads others; of each as much is in use as the letters ask
// (no heap).
ghost use Rattle.std.specs.Prelude.{◌≡◌, Bool, true, ◌*◌, ◌≤◌, ◌<◌, length};
ghost use Rattle.enzyme_keep.specs.Buffer.{sealed};
ghost use Rattle.enzyme_keep.specs.Steps.{standing};
ghost use Rattle.enzyme_tables.specs.Listed.{DigestsListed};
ghost use Rattle.enzyme_windows.specs.Pieces.{pieces};
ghost use Rattle.enzyme_once.specs.Once.{each_once};
ghost use Rattle.enzyme_words.specs.Words.{Zeros, Far};
ghost use Rattle.enzyme_sites.specs.Starts.{Starts};
ghost use Rattle.enzyme_samples.specs.Ready.{run_started, run_step, Offers, OffersOf};
ghost use Rattle.enzyme_parts.specs.Walk.{sites_in};
ghost use Rattle.enzyme_semi.specs.WeightLaws.{weight_of};
ghost use Rattle.enzyme_semi.specs.SemiLaws.{semi_of};

use enzyme_cuts::Knife;
use enzyme_keep::Terms;
use enzyme_samples::{Run, Source};

// Offers all windows, and behind them their parts: those of the first of equal windows for all of them, where the tables are long
// enough to find these.
fn offer_semi(
    source: &Source,
    knife: Knife,
    missed: u8,
    starts: &[u32],
    m: usize,
    out: &mut [u8],
    marks: &mut [u32],
    order: &mut [u16],
    other: &mut [u16],
    name: &mut [u16],
    rank: &mut [u16],
    share: &mut [u8],
    seen: &mut [u8],
) -> Run
    requires { (length source.now.letters.now ≤ 65536) × (missed ≤ 16) × Starts knife source.now.letters.now starts.now m × Far source.now.letters.now source.now.far.now × (length order.old ≤ length other.old) × (length order.old ≤ length name.old) × (length order.old ≤ length rank.old) × (length order.old ≤ length share.old) × Zeros share.old }
    ensures { (looked : Bool) × OffersOf source.now (semi_of (weight_of looked (pieces knife source.now.letters.now)) missed (sites_in starts.now m)) run_started out.old marks.old result out.new marks.new }
{
    let looked = m <= order.len();
    let g = enzyme_sizes::begin(
        looked,
        source.letters,
        knife,
        starts,
        m,
        order,
        other,
        name,
        rank,
        share,
        seen,
    );
    let run = enzyme_samples::start_run();
    let at = enzyme_semi::offer_all_windows(source, starts, m, missed, out, marks, run);
    enzyme_sizes::offer_sizes(
        looked, source, knife, starts, m, missed, out, marks, order, other, name, rank, share, g,
        at,
    )
}

// Writes the protein's number where the links of the records stand.
fn finish(out: &mut [u8], protein: u32, run: Run) -> Option<usize>
    requires { 20 * standing (run_step run) out.old ≤ length out.old }
    ensures { (result ≡ run_step run) × (out.new ≡ sealed protein (standing (run_step run) out.old) out.old) }
{
    if run.full {
        enzyme_keep::seal_all(out, protein);
        return None;
    }
    enzyme_keep::seal(out, run.count, protein);
    Some(run.count)
}

// Offers the ranges, and writes the protein's number where the links stood.
fn list_semi(
    source: &Source,
    knife: Knife,
    missed: u8,
    starts: &[u32],
    m: usize,
    out: &mut [u8],
    marks: &mut [u32],
    order: &mut [u16],
    other: &mut [u16],
    name: &mut [u16],
    rank: &mut [u16],
    share: &mut [u8],
    seen: &mut [u8],
) -> Option<usize>
    requires { (length source.now.letters.now ≤ 65536) × (missed ≤ 16) × Starts knife source.now.letters.now starts.now m × Far source.now.letters.now source.now.far.now × (length order.old ≤ length other.old) × (length order.old ≤ length name.old) × (length order.old ≤ length rank.old) × (length order.old ≤ length share.old) × Zeros share.old }
    ensures { DigestsListed source.now.letters.now source.now.terms (each_once knife true missed source.now.letters.now) out.old result out.new }
{
    let run = offer_semi(
        source, knife, missed, starts, m, out, marks, order, other, name, rank, share, seen,
    );
    finish(out, source.terms.protein, run)
}

// With tables that are lent: where the sites start; what a start shares at most; which words stand twice;
// samples of the list; four for the order and the names of the sites; and how many sites each window shares with an earlier one.
fn semi_over(
    letters: &[u8],
    knife: Knife,
    missed: u8,
    terms: Terms,
    out: &mut [u8],
    starts: &mut [u32],
    far: &mut [u32],
    count: &mut [u8],
    marks: &mut [u32],
    order: &mut [u16],
    other: &mut [u16],
    name: &mut [u16],
    rank: &mut [u16],
    share: &mut [u8],
    seen: &mut [u8],
) -> Option<usize>
    requires { (length letters.now ≤ 65536) × (missed ≤ 16) × (length letters.now < length starts.old) × (length letters.now ≤ length far.old) × (0 < length count.old) × (length count.old ≤ 131072) × Zeros count.old × (length order.old ≤ length other.old) × (length order.old ≤ length name.old) × (length order.old ≤ length rank.old) × (length order.old ≤ length share.old) × Zeros share.old }
    ensures { DigestsListed letters.now terms (each_once knife true missed letters.now) out.old result out.new }
{
    let m = enzyme_sites::sites(letters, knife, starts);
    enzyme_words::fill_far(letters, far, count);
    let source = Source {
        letters,
        far,
        terms,
    };
    list_semi(
        &source, knife, missed, starts, m, out, marks, order, other, name, rank, share, seen,
    )
}

// The same with tables on the stack, so long as the numbers say: one place more than letters for where the sites start, one for
// each letter, word, mark and site in the order, and for what was seen of letters.
pub fn semi_with<
    const STARTS: usize,
    const LETTERS: usize,
    const WORDS: usize,
    const MARKS: usize,
    const SITES: usize,
    const SEEN: usize,
>(letters: &[u8], knife: Knife, missed: u8, terms: Terms, out: &mut [u8]) -> Option<usize>
    requires { (missed ≤ 16) × (length letters.now < STARTS) × (STARTS ≤ 65537) × (length letters.now ≤ LETTERS) × (LETTERS ≤ 65536) × (0 < WORDS) × (WORDS ≤ 131072) × (MARKS ≤ 65536) × (SITES ≤ 65536) × (SEEN ≤ 65536) }
    ensures { DigestsListed letters.now terms (each_once knife true missed letters.now) out.old result out.new }
{
    let mut starts = [0u32; STARTS];
    let mut far = [0u32; LETTERS];
    let mut count = [0u8; WORDS];
    let mut marks = [0u32; MARKS];
    let mut order = [0u16; SITES];
    let mut other = [0u16; SITES];
    let mut name = [0u16; SITES];
    let mut rank = [0u16; SITES];
    let mut share = [0u8; SITES];
    let mut seen = [0u8; SEEN];
    semi_over(
        letters,
        knife,
        missed,
        terms,
        out,
        &mut starts,
        &mut far,
        &mut count,
        &mut marks,
        &mut order,
        &mut other,
        &mut name,
        &mut rank,
        &mut share,
        &mut seen,
    )
}
