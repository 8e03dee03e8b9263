// Lookup by halving in a listing that is lent as records (docs/FORMAT.md, "Lookup"); in the Rust `TreeRef::bisect_entry` of src/tree/ref_iter.rs.
#![tactic(auto)]

ghost use Rattle.std.specs.Prelude.{◌≡◌, ◌<◌, length};
ghost use Rattle.entry.specs.Record.{many, records_of};
ghost use Rattle.lookup.specs.Halving.{most_comparisons, told_of};
ghost use Rattle.lookup.specs.Lookup.{nth, lookup_in, any_in, Allowed};

use entry::EntryRecord;
use ground::{BAD_RECORD, FINE, NOT_THERE, Verdict};
use std::cmp::Ordering;

// The answer of a lookup: the index of what was found, and how many records were compared.
#[derive(Clone, Copy)]
pub struct Looked {
    pub verdict: Verdict,
    pub index: usize,
    pub compared: usize,
}

// How a search ended: at the record that was found, at one that is not well formed, or without one; and how many were compared.
#[derive(Clone, Copy)]
enum Ended {
    Found(usize, usize),
    Bad(usize),
    Absent(usize),
}

// The most records that a lookup among n compares: as many as n has binary digits.
pub fn most_comparisons(n: usize) -> usize
    ensures { result ≡ most_comparisons n }
{
    64 - usize::leading_zeros(n) as usize
}

// Record i of the flat numbers, which is there, from its own numbers alone: so the compiler knows what `entry_at` tests, and leaves it out.
fn record_at(records: &[usize], i: usize) -> EntryRecord
    requires { i < many (length records.now) }
    ensures { result ≡ nth (records_of records.now) i }
{
    let at = i * entry_record::WIDTH;
    let end = at + entry_record::WIDTH;
    entry_record::entry_at(&records[at..end], 0)
}

// The lookup over flat records, within the bounds.
fn searched(object: &[u8], h: usize, records: &[usize], name: &[u8], folder: bool) -> Ended
    requires { Allowed h object.now (records_of records.now) name.now }
    ensures { told_of result ≡ lookup_in h object.now (records_of records.now) name.now folder }
{
    let mut low: usize = 0;
    let mut high = records.len() / entry_record::WIDTH;
    let mut compared: usize = 0;
    while low < high {
        let middle = (low + high) / 2;
        let e = record_at(records, middle);
        if !entry_record::well_formed(h, object.len(), e) {
            return Ended::Bad(middle);
        }
        compared += 1;
        let first = e.name_start;
        let end = e.name_end;
        let tree = entry_record::is_folder(e);
        match compare::name_order(&object[first..end], tree, name, folder) {
            Ordering::Less => low = middle + 1,
            Ordering::Equal => return Ended::Found(middle, compared),
            Ordering::Greater => high = middle,
        }
    }
    Ended::Absent(compared)
}

// What is answered to a search that ended.
fn told(ended: Ended) -> Looked
    ensures { result ≡ told_of ended }
{
    match ended {
        Ended::Found(index, compared) => Looked {
            verdict: FINE,
            index,
            compared,
        },
        Ended::Bad(place) => Looked {
            verdict: Verdict {
                number: BAD_RECORD,
                place,
                ..FINE
            },
            index: 0,
            compared: 0,
        },
        Ended::Absent(compared) => Looked {
            verdict: Verdict {
                number: NOT_THERE,
                ..FINE
            },
            index: 0,
            compared,
        },
    }
}

// The lookup over flat records.
pub fn bisect_entry(object: &[u8], h: usize, records: &[usize], name: &[u8], folder: bool) -> Looked
    ensures { result ≡ lookup_in h object.now (records_of records.now) name.now folder }
{
    let n = records.len() / entry_record::WIDTH;
    match ground::bounds(h, ground::longer(object.len(), name.len()), n) {
        Ok(()) => told(searched(object, h, records, name, folder)),
        Err(v) => Looked {
            verdict: v,
            index: 0,
            compared: 0,
        },
    }
}

// The lookup of a name whatever its sort, within the bounds: as anything else than a folder, and where that is not there, as a folder.
fn searched_any(object: &[u8], h: usize, records: &[usize], name: &[u8]) -> Looked
    requires { Allowed h object.now (records_of records.now) name.now }
    ensures { result ≡ any_in h object.now (records_of records.now) name.now }
{
    let first = told(searched(object, h, records, name, false));
    if first.verdict.number != NOT_THERE {
        return first;
    }
    let second = told(searched(object, h, records, name, true));
    if second.verdict.number == BAD_RECORD {
        return second;
    }
    let verdict = second.verdict;
    let index = second.index;
    let compared = first.compared + second.compared;
    Looked {
        verdict,
        index,
        compared,
    }
}

// The same over any lists.
pub fn bisect_any(object: &[u8], h: usize, records: &[usize], name: &[u8]) -> Looked
    ensures { result ≡ any_in h object.now (records_of records.now) name.now }
{
    let n = records.len() / entry_record::WIDTH;
    match ground::bounds(h, ground::longer(object.len(), name.len()), n) {
        Ok(()) => searched_any(object, h, records, name),
        Err(v) => Looked {
            verdict: v,
            index: 0,
            compared: 0,
        },
    }
}
