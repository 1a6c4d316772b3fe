// Ranges offered to the list.
// `out` is the caller's buffer (no heap): `count` records stand in it, and there is room behind them.
// A range goes as the numbers of its record, which are written one by one.
ghost use Rattle.std.specs.Prelude.{◌≡◌, true, false, ◌-◌, ◌≤◌, length};
ghost use Rattle.enzyme_cuts.specs.Cutting.{range, site, part, seen_in, within};
ghost use Rattle.enzyme_keep.specs.Buffer.{ranges_in, links_in};
ghost use Rattle.enzyme_list.specs.declared.walk.Place.TheVariants.{Behind};
ghost use Rattle.enzyme_list.specs.Chain.{Begun, Sought};
ghost use Rattle.enzyme_list.specs.Offer.{Keeps, ListTells, Brimming, Came, CameUnlinked};

use crate::counting::add_times;
use crate::linking::insert;
use crate::walk::{Place, search};
use enzyme_keep::Terms;

// How many records there are, and the first of the list; and whether there was no room for one more. No Option: a list that is
// full goes on, and counts what it finds (`Came.tells`). Its parts are passed one by one, since a copy of the whole would wait
// for the bytes behind `full`.
#[derive(Clone, Copy)]
pub struct Run {
    pub count: usize,
    pub head: usize,
    pub full: bool,
}

// The letters a..e, whose length is wanted and which no record has: their record is written behind the first count records
// and linked in behind record prev, if there is room.
fn link(
    letters: &[u8],
    a: usize,
    e: usize,
    missed: u8,
    semi: u8,
    times: u32,
    terms: Terms,
    out: &mut [u8],
    count: usize,
    head: usize,
    full: bool,
    prev: usize,
) -> Run
    requires { Keeps letters.now count head out.old × (a ≤ e) × (e ≤ length letters.now) × ListTells letters.now count head out.old (part letters.now (site a e)) × Brimming count full out.old × (within terms.minimum terms.maximum (e - a) ≡ true) × Sought letters.now (ranges_in count out.old) (links_in count out.old) head (part letters.now (site a e)) (Behind prev) }
    ensures { Came letters.now terms (range a e missed semi) times count head full out.old result out.new }
{
    if records::room_for(out.len(), 20, 1048576) <= count {
        return Run {
            count: count,
            head: head,
            full: true,
        };
    }
    let first = insert(letters, a, e, missed, semi, times, out, count, head, prev);
    let next = count + 1;
    Run {
        count: next,
        head: first,
        full: false,
    }
}

// Where a record of the list has the letters a..e, it gets `times` more, also where there was no room for another. Where none
// has them, their record is written behind the first count records with that number and linked in, if its length is wanted
// and there is room. The search begins at record `from` of the list, which is below a..e, or at the first one for 0.
pub fn offer(
    letters: &[u8],
    a: usize,
    e: usize,
    missed: u8,
    semi: u8,
    times: u32,
    terms: Terms,
    out: &mut [u8],
    count: usize,
    head: usize,
    full: bool,
    from: usize,
) -> Run
    requires { Keeps letters.now count head out.old × (a ≤ e) × (e ≤ length letters.now) × ListTells letters.now count head out.old (part letters.now (site a e)) × Begun letters.now (ranges_in count out.old) (links_in count out.old) head from (part letters.now (site a e)) × Brimming count full out.old }
    ensures { Came letters.now terms (range a e missed semi) times count head full out.old result out.new }
{
    let fits = enzyme_keep::length_within(e - a, terms.minimum, terms.maximum);
    if !fits {
        return Run {
            count: count,
            head: head,
            full: full,
        };
    }
    let place = search(letters, out, count, head, from, a, e);
    match place {
        Place::Same(t) => {
            add_times(out, t, times);
            Run {
                count: count,
                head: head,
                full: full,
            }
        }
        Place::Behind(prev) => {
            link(
                letters, a, e, missed, semi, times, terms, out, count, head, full, prev,
            )
        }
    }
}

// The same of a range whose letters no record has: it is not sought, and not linked in.
pub fn write(
    letters: &[u8],
    a: usize,
    e: usize,
    missed: u8,
    semi: u8,
    times: u32,
    terms: Terms,
    out: &mut [u8],
    count: usize,
    head: usize,
    full: bool,
) -> Run
    requires { Keeps letters.now count head out.old × (a ≤ e) × (e ≤ length letters.now) × (seen_in letters.now (ranges_in count out.old) (part letters.now (site a e)) ≡ false) × Brimming count full out.old }
    ensures { CameUnlinked letters.now terms (range a e missed semi) times count head full out.old result out.new }
{
    if !enzyme_keep::length_within(e - a, terms.minimum, terms.maximum) {
        return Run {
            count: count,
            head: head,
            full: full,
        };
    }
    if records::room_for(out.len(), 20, 1048576) <= count {
        return Run {
            count: count,
            head: head,
            full: true,
        };
    }
    let n = letters.len();
    enzyme_keep::put_record(out, 20 * count, a, e, missed, semi, n, 0, times);
    let next = count + 1;
    Run {
        count: next,
        head: head,
        full: false,
    }
}
