// The record of an entry among flat numbers: read, stored, and asked (docs/FORMAT.md, "Records").
#![tactic(auto)]

ghost use Rattle.std.specs.Prelude.{◌≡◌, ◌+◌, leb, get_or};
ghost use Rattle.entry.specs.Record.{records_of, no_record, put_record, well_formed, folder_of};

use entry::{EntryRecord, NO_RECORD};
use mode::EntryMode;

// The numbers of a record, as they lie in a flat list.
pub const WIDTH: usize = 5;

// Record i of the flat numbers, or zeros where there is none.
pub fn entry_at(records: &[usize], i: usize) -> EntryRecord
    ensures { result ≡ get_or (records_of records.now) i no_record }
{
    if records.len() / WIDTH <= i {
        return NO_RECORD;
    }
    let at = i * WIDTH;
    EntryRecord {
        mode: records[at],
        name_start: records[at + 1],
        name_end: records[at + 2],
        id_start: records[at + 3],
        text_start: records[at + 4],
    }
}

// Stores record i in the flat numbers, where there is room for it.
pub fn put_entry(records: &mut [usize], i: usize, e: EntryRecord)
    ensures { records.new ≡ put_record records.old i e }
{
    if records.len() / WIDTH <= i {
        return;
    }
    let at = i * WIDTH;
    records[at] = e.mode;
    records[at + 1] = e.name_start;
    records[at + 2] = e.name_end;
    records[at + 3] = e.id_start;
    records[at + 4] = e.text_start;
}

// Whether an id of h bytes from a place on lies inside so many bytes.
fn holds_id(h: usize, len: usize, id: usize) -> bool
    ensures { result ≡ leb (id + h) len }
{
    h <= len && id <= len - h
}

// Whether a record names a mode, a name and an id of h bytes inside so many bytes, and no mode text that starts after the name does. The name's end
// is held to the bytes first, so that the compiler keeps no copy of it for its distance from the start.
pub fn well_formed(h: usize, len: usize, e: EntryRecord) -> bool
    ensures { result ≡ well_formed h len e }
{
    // By `&`: no test is a branch of its own.
    let id = holds_id(h, len, e.id_start);
    (e.mode <= 65535)
        & ((e.name_end <= len)
            & ((e.name_start <= e.name_end) & (id & (e.text_start <= e.name_start))))
}

// Whether a record is a folder's.
pub fn is_folder(e: EntryRecord) -> bool
    ensures { result ≡ folder_of e }
{
    let m = EntryMode {
        internal: (e.mode % 65536) as u16,
    };
    m.is_tree()
}
