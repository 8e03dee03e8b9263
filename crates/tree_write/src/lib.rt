// A tree object written from records, and its size (docs/FORMAT.md, "Tree writing"). Follows tree/write.rs.
#![tactic(auto)]

ghost use Rattle.std.specs.Prelude.{◌≡◌, true, false, [], ◌∷◌, ◌++◌, ◌+◌, ◌≤◌, length, take};
ghost use Rattle.std.proofs.lemmas.List.Edits.{sets};
ghost use Rattle.ground.specs.Verdict.{most_bytes, most_records, stored};
ghost use Rattle.mode_text.specs.Write.{write_mode};
ghost use Rattle.entry.specs.Record.{records_of};
ghost use Rattle.entry.specs.Entry.{entry_bytes, entry_of};
ghost use Rattle.tree_write.specs.Write.{written, entry_size, refusal, measured, tree_size, tree_answer};

use entry::EntryRecord;
use entry_record::{WIDTH, entry_at, well_formed};
use ground::{Answer, BAD_RECORD, DONE, FINE, NUL_IN_NAME, Verdict, bounds, longer};
use mode::EntryMode;
use mode_text::ShortText;
use output::{fit, put, put_ended};
use scan::find_nul;

// The number that refuses a record, or 0.
fn refuse(bytes: &[u8], h: usize, writing: bool, e: EntryRecord) -> usize
    ensures { result ≡ refusal writing h bytes.now e }
{
    if well_formed(h, bytes.len(), e) {
        if writing {
            let start = e.name_start;
            let end = e.name_end;
            if find_nul(&bytes[start..end], 0) == end - start {
                return DONE;
            }
            return NUL_IN_NAME;
        }
        return DONE;
    }
    BAD_RECORD
}

// The text of a mode that has 16 bits.
fn mode_text(mode: usize) -> ShortText
    requires { mode ≤ 65535 }
    ensures { (result.len ≡ length (write_mode mode)) × (result.len ≤ 6) × (result.len ≤ length result.bytes) × (take result.len result.bytes ≡ write_mode mode) }
{
    let m = EntryMode {
        internal: mode as u16,
    };
    m.as_bytes()
}

// The length of that text.
fn text_size(mode: usize) -> usize
    requires { mode ≤ 65535 }
    ensures size { result ≡ length (write_mode mode) }
    ensures small { result ≤ 6 }
{
    if mode == 0 {
        return 1;
    }
    if mode / 0o10000 == 4 {
        return 5;
    }
    6
}

// The length of an entry's bytes.
fn entry_size(h: usize, e: EntryRecord) -> usize
    requires { (e.mode ≤ 65535) × (e.name_start ≤ e.name_end) × (e.name_end ≤ most_bytes) × (h ≤ 32) }
    ensures { result ≡ entry_size h e }
{
    let n = text_size(e.mode);
    let name = e.name_end - e.name_start;
    n + 1 + name + 1 + h
}

// The size of all entries, or the first refusal of one.
fn measure(bytes: &[u8], h: usize, records: &[usize], writing: bool) -> Answer
    requires { (h ≤ 32) × (length bytes.now ≤ most_bytes) × (length (records_of records.now) ≤ most_records) }
    ensures { result ≡ measured writing h bytes.now 0 0 (records_of records.now) }
{
    let n = records.len() / WIDTH;
    let mut sum = 0;
    for i in 0..n {
        let e = entry_at(records, i);
        let number = refuse(bytes, h, writing, e);
        if number != DONE {
            return Answer {
                verdict: Verdict {
                    number,
                    place: i,
                    ..FINE
                },
                count: 0,
            };
        }
        sum += entry_size(h, e);
    }
    Answer {
        verdict: FINE,
        count: sum,
    }
}

// Stores the text of a mode and a space, and says how long the text is. That of a plain file, which most entries are, is known.
fn put_mode(out: &mut [u8], at: usize, mode: usize) -> usize
    requires { (mode ≤ 65535) × (at + length (write_mode mode) + 1 ≤ length out.old) }
    ensures size { result ≡ length (write_mode mode) }
    ensures small { result ≤ 6 }
    ensures text { out.new ≡ sets out.old at (write_mode mode ++ 32 ∷ []) }
{
    if mode == 0o100644 {
        out[at..at + 7].copy_from_slice(b"100644 ");
        return 6;
    }
    let text = mode_text(mode);
    let digits = text.bytes;
    let n = text.len;
    put_ended(out, at, &digits[..n], b' ');
    n
}

// Writes an entry at a place, and gives the place past it.
fn write_entry(out: &mut [u8], at: usize, bytes: &[u8], h: usize, e: EntryRecord) -> usize
    requires mode_bound { (e.mode ≤ 65535) × (e.name_start ≤ e.name_end) × (e.name_end ≤ length bytes.now) × (e.id_start + h ≤ length bytes.now) × (e.text_start ≤ e.name_start) }
    requires e_in_bounds { at + entry_size h e ≤ length out.old }
    ensures value { result ≡ at + entry_size h e }
    ensures out_after { out.new ≡ sets out.old at (entry_bytes (entry_of h bytes.now e)) }
{
    let n = put_mode(out, at, e.mode);
    let start = e.name_start;
    let end = e.name_end;
    let id = e.id_start;
    let last = id + h;
    let name = at + n + 1;
    let next = name + (end - start) + 1;
    put_ended(out, name, &bytes[start..end], 0);
    put(out, next, &bytes[id..last]);
    next + h
}

// Writes all entries: none is refused, and there is room.
fn fill(out: &mut [u8], bytes: &[u8], h: usize, records: &[usize])
    requires records_value { (measured true h bytes.now 0 0 (records_of records.now)).verdict.number ≡ 0 }
    requires records_in_bounds { (measured true h bytes.now 0 0 (records_of records.now)).count ≤ length out.old }
    ensures { out.new ≡ sets out.old 0 (written h bytes.now (records_of records.now)) }
{
    let many = records.len() / WIDTH;
    let mut at = 0;
    for i in 0..many {
        at = write_entry(out, at, bytes, h, entry_at(records, i));
    }
}

// The size of the tree object that the records name.
pub fn tree_size(bytes: &[u8], h: usize, records: &[usize]) -> Answer
    ensures { result ≡ tree_size h bytes.now records.now }
{
    match bounds(h, bytes.len(), records.len() / WIDTH) {
        Err(v) => {
            return Answer {
                verdict: v,
                count: 0,
            };
        }
        Ok(()) => return measure(bytes, h, records, false),
    }
}

// Writes the tree object that the records name.
pub fn write_tree(bytes: &[u8], h: usize, records: &[usize], out: &mut [u8]) -> Answer
    ensures value { result ≡ tree_answer h bytes.now records.now (length out.old) }
    ensures out_after { out.new ≡ stored (tree_answer h bytes.now records.now (length out.old)).verdict (written h bytes.now (records_of records.now)) out.old }
{
    match bounds(h, longer(bytes.len(), out.len()), records.len() / WIDTH) {
        Err(v) => {
            return Answer {
                verdict: v,
                count: 0,
            };
        }
        Ok(()) => {}
    }
    let a = fit(out.len(), measure(bytes, h, records, true));
    let number = a.verdict.number;
    if number != DONE {
        return a;
    }
    fill(out, bytes, h, records);
    a
}
