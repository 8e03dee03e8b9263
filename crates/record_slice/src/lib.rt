// The lookup of crate lookup over records that are structs (docs/FORMAT.md, "Lookup"): the search of crate probe, stepped over a lent slice of
// them (`bisect_records`), or over the first of an array that is passed by value (`bisect_array`).
#![tactic(auto)]

ghost use Rattle.std.specs.Prelude.{◌≡◌, take};
ghost use Rattle.lookup.specs.Lookup.{lookup_in};

use entry::EntryRecord;
use lookup::Looked;
use probe::{Query, answer, start, step};

// The records that an array by value has room for.
pub const ROOM: usize = 64;

// The lookup over a lent slice of records.
pub fn bisect_records(
    object: &[u8],
    h: usize,
    records: &[EntryRecord],
    name: &[u8],
    folder: bool,
) -> Looked
    ensures { result ≡ lookup_in h object.now records.now name.now folder }
{
    let q = Query { h, folder };
    let mut p = start(object.len(), name.len(), records.len(), q);
    while p.on {
        p = step(object, name, q, p, records[p.at]);
    }
    answer(p)
}

// The lookup among the first `count` records of an array, or among all 64 where the count is more.
pub fn bisect_array(
    object: &[u8],
    h: usize,
    count: usize,
    records: [EntryRecord; ROOM],
    name: &[u8],
    folder: bool,
) -> Looked
    ensures { result ≡ lookup_in h object.now (take count records) name.now folder }
{
    let n = count.min(ROOM);
    bisect_records(object, h, &records[..n], name, folder)
}
