// A lookup among records as a value that is stepped (docs/FORMAT.md, "Lookup"): `start` makes it, `step` compares one record, `answer` reads it off.
#![tactic(auto)]

ghost use Rattle.std.specs.Prelude.{◌≡◌, ◌<◌};
ghost use Rattle.ground.specs.Verdict.{most_records};
ghost use Rattle.lookup.specs.Halving.{met};
ghost use Rattle.probe.specs.Probe.{aimed_of, stopped_of, start_of, moved_of, probe_step, answer_of};

use entry::EntryRecord;
use ground::{BAD_RECORD, FINE, NOT_THERE, Verdict};
use lookup::Looked;
use std::cmp::Ordering;

// What is sought beside its name: the length of ids, and whether it is a folder.
#[derive(Clone, Copy)]
pub struct Query {
    pub h: usize,
    pub folder: bool,
}

// A search under way between low and high: while `on`, record `at` is the next to be compared. `looked` is its answer if it ends here.
#[derive(Clone, Copy)]
pub struct Probe {
    pub on: bool,
    pub at: usize,
    pub low: usize,
    pub high: usize,
    pub looked: Looked,
}

// A search that goes on between low and high, unless nothing is left there.
fn aimed(low: usize, high: usize, compared: usize) -> Probe
    ensures { result ≡ aimed_of low high compared }
{
    let looked = Looked {
        verdict: Verdict {
            number: NOT_THERE,
            ..FINE
        },
        index: 0,
        compared,
    };
    if low < high {
        let at = low + (high - low) / 2;
        return Probe {
            on: true,
            at,
            low,
            high,
            looked,
        };
    }
    Probe {
        on: false,
        at: low,
        low,
        high,
        looked,
    }
}

// A search that has ended with an answer.
fn stopped(verdict: Verdict, index: usize, compared: usize) -> Probe
    ensures { result ≡ stopped_of verdict index compared }
{
    Probe {
        on: false,
        at: 0,
        low: 0,
        high: 0,
        looked: Looked {
            verdict,
            index,
            compared,
        },
    }
}

// The search among n records, in an object and for a name of these lengths; ended at once where a bound refuses it.
pub fn start(object: usize, name: usize, n: usize, q: Query) -> Probe
    ensures { result ≡ start_of object name n q }
{
    match ground::bounds(q.h, ground::longer(object, name), n) {
        Ok(()) => aimed(0, n, 0),
        Err(v) => stopped(v, 0, 0),
    }
}

// The search after its record was well formed and stood so to the name sought.
fn moved(p: Probe, o: Ordering) -> Probe
    requires at_lt_high { p.at < p.high }
    requires compared_lt_most_records { p.looked.compared < most_records }
    ensures { result ≡ moved_of p (met o) }
{
    let at = p.at;
    let compared = p.looked.compared + 1;
    match o {
        Ordering::Less => aimed(at + 1, p.high, compared),
        Ordering::Equal => stopped(FINE, at, compared),
        Ordering::Greater => aimed(p.low, at, compared),
    }
}

// One record compared: e is the record `at` of the search. A search that has ended, or whose count is full, stays as it is.
pub fn step(object: &[u8], name: &[u8], q: Query, p: Probe, e: EntryRecord) -> Probe
    ensures { result ≡ probe_step object.now name.now q p e }
{
    let at = p.at;
    if p.high <= at {
        return p;
    }
    if ground::MOST_RECORDS <= p.looked.compared {
        return p;
    }
    if entry_record::well_formed(q.h, object.len(), e) {
        let first = e.name_start;
        let end = e.name_end;
        let tree = entry_record::is_folder(e);
        let o = order::name_order(&object[first..end], tree, name, q.folder);
        return moved(p, o);
    }
    stopped(
        Verdict {
            number: BAD_RECORD,
            place: at,
            ..FINE
        },
        0,
        0,
    )
}

// What a search that has ended answers.
pub fn answer(p: Probe) -> Looked
    ensures { result ≡ answer_of p }
{
    p.looked
}
