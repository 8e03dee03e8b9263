// A whole tree object into lent records (docs/FORMAT.md, "Reading"). Follows tree/ref_iter.rs.
#![tactic(auto)]

ghost use Rattle.std.specs.Prelude.{◌≡◌, ◌≤◌, ◌<◌, length, get_or, take, drop};
ghost use Rattle.std.proofs.lemmas.List.Edits.{sets};
ghost use Rattle.ground.specs.Scan.{place_from};
ghost use Rattle.entry.specs.Record.{many};
ghost use Rattle.entry.specs.Decode.{decode, decoded_verdict};
ghost use Rattle.mode_code.specs.Code.{code_at};
ghost use Rattle.reading.specs.Listing.{listing, tally, records_in, flats};
ghost use Rattle.reading.specs.Whole.{in_room, finished, read_answer, read_records};
ghost use Rattle.reading.specs.Lengths.{remembered, Known, Lengths};

use entry::{Cursor, EntryRecord};
use entry_record::{WIDTH, put_entry};
use ground::{Answer, BOUND, FEW_RECORDS, FINE, MOST_RECORDS, Verdict, bounds};
use mode_code::{code_at, quick_code};
use scan::find_nul;

// The code of the mode at a place, the written ones tried first.
fn mode_code(s: &[u8], at: usize) -> usize
    ensures { result ≡ code_at s.now at }
{
    let quick = quick_code(s, at);
    if quick == 0 {
        return code_at(s, at);
    }
    quick
}

// The verdict on the entry at a place, as decoding gives it: done where it can be read.
fn verdict_at(s: &[u8], h: usize, at: usize) -> Verdict
    ensures { result ≡ decoded_verdict (decode h at (drop at s.now)) }
{
    let c = Cursor { at };
    match c.decode(s, h) {
        Ok((_, _)) => FINE,
        Err(v) => v,
    }
}

// The length of entry n's name, kept where it is a byte's and there is room for it.
fn remember(lengths: &mut [u8], n: usize, len: usize)
    ensures { lengths.new ≡ remembered lengths.old n len }
{
    if n < lengths.len() && len <= 255 {
        lengths[n] = len as u8;
    }
}

// Where the name of entry n ends, which starts at a place: by its length where that is kept, else it is sought.
fn name_end(s: &[u8], from: usize, lengths: &[u8], n: usize) -> usize
    requires { (from ≤ length s.now) × Known s.now from (get_or lengths.now n 0) }
    ensures { result ≡ place_from 0 s.now from }
{
    if lengths.len() <= n {
        return find_nul(s, from);
    }
    let len = lengths[n] as usize;
    if len == 0 {
        return find_nul(s, from);
    }
    from + len
}

// The first pass of the plain reader, which keeps the names' lengths for the second.
fn count_plain(s: &[u8], h: usize, lengths: &mut [u8]) -> Result<usize, Verdict>
    requires { Lengths h s.now lengths.old }
    ensures count { result ≡ tally 0 (listing h s.now) }
    ensures lengths { Lengths h s.now lengths.new }
{
    let mut at: usize = 0;
    let mut n: usize = 0;
    while at < s.len() {
        if MOST_RECORDS <= n {
            return Err(Verdict {
                number: BOUND,
                ..FINE
            });
        }
        let code = mode_code(s, at);
        if code == 0 {
            return Err(verdict_at(s, h, at));
        }
        let from = at + code % 16;
        let end = find_nul(s, from);
        let left = s.len() - end;
        if left <= h {
            return Err(verdict_at(s, h, at));
        }
        remember(lengths, n, end - from);
        at = end + 1 + h;
        n += 1;
    }
    Ok(n)
}

// The second pass: the records of the first entries that can be read, so many at most, from the front of the lent list.
fn fill(s: &[u8], h: usize, count: usize, lengths: &[u8], records: &mut [usize])
    requires { (count ≤ many (length records.old)) × Lengths h s.now lengths.now }
    ensures { records.new ≡ sets records.old 0 (flats (take count (records_in (listing h s.now)))) }
{
    let mut at: usize = 0;
    for n in 0..count {
        if MOST_RECORDS <= n {
            return;
        }
        let code = mode_code(s, at);
        if code == 0 {
            return;
        }
        let mode = code / 16;
        let name_start = at + code % 16;
        let name_end = name_end(s, name_start, lengths, n);
        let left = s.len() - name_end;
        if left <= h {
            return;
        }
        let id_start = name_end + 1;
        let e = EntryRecord {
            mode,
            name_start,
            name_end,
            id_start,
            text_start: at,
        };
        put_entry(records, n, e);
        at = id_start + h;
    }
}

// The end of a reading, once its entries were counted, by the names' lengths that are known: 4 where the lent list is too short for them, else
// their records are stored.
fn finish_by(
    s: &[u8],
    h: usize,
    got: Result<usize, Verdict>,
    lengths: &[u8],
    records: &mut [usize],
) -> Answer
    requires { Lengths h s.now lengths.now }
    ensures answer { result ≡ in_room (many (length records.old)) got }
    ensures records { records.new ≡ finished h s.now got records.old }
{
    match got {
        Err(v) => Answer {
            verdict: v,
            count: 0,
        },
        Ok(n) => {
            if records.len() / WIDTH < n {
                return Answer {
                    verdict: Verdict {
                        number: FEW_RECORDS,
                        place: n,
                        ..FINE
                    },
                    count: 0,
                };
            }
            fill(s, h, n, lengths, records);
            Answer {
                verdict: FINE,
                count: n,
            }
        }
    }
}

// The same where none is known.
pub fn finish(s: &[u8], h: usize, got: Result<usize, Verdict>, records: &mut [usize]) -> Answer
    ensures answer { result ≡ in_room (many (length records.old)) got }
    ensures records { records.new ≡ finished h s.now got records.old }
{
    let none = [0u8; 1];
    finish_by(s, h, got, &none, records)
}

// Both passes, within the bounds, by a list for the names' lengths.
fn read_by(s: &[u8], h: usize, lengths: &mut [u8], records: &mut [usize]) -> Answer
    requires { Lengths h s.now lengths.old }
    ensures answer { result ≡ in_room (many (length records.old)) (tally 0 (listing h s.now)) }
    ensures records { records.new ≡ finished h s.now (tally 0 (listing h s.now)) records.old }
{
    let got = count_plain(s, h, lengths);
    finish_by(s, h, got, lengths, records)
}

// An object of more than 8 MiB: a name is sought once in the first 131,072 entries, and twice in those behind them. It has a stack of its own,
// which only such an object takes.
#[inline(never)]
fn read_long(s: &[u8], h: usize, records: &mut [usize]) -> Answer
    ensures answer { result ≡ in_room (many (length records.old)) (tally 0 (listing h s.now)) }
    ensures records { records.new ≡ finished h s.now (tally 0 (listing h s.now)) records.old }
{
    let mut lengths = [0u8; 131072];
    read_by(s, h, &mut lengths, records)
}

// Both passes, with no more memory than an object of this length is worth: in one of at most 8 MiB a name is sought once in the first 2,040 entries.
fn read_plain(s: &[u8], h: usize, records: &mut [usize]) -> Answer
    ensures answer { result ≡ in_room (many (length records.old)) (tally 0 (listing h s.now)) }
    ensures records { records.new ≡ finished h s.now (tally 0 (listing h s.now)) records.old }
{
    if 8388608 < s.len() {
        return read_long(s, h, records);
    }
    let mut lengths = [0u8; 2040];
    read_by(s, h, &mut lengths, records)
}

// The object's entries as records, five numbers each; a refusal changes none of the numbers lent.
pub fn read_tree(bytes: &[u8], h: usize, records: &mut [usize]) -> Answer
    ensures answer { result ≡ read_answer h bytes.now (listing h bytes.now) records.old }
    ensures records { records.new ≡ read_records h bytes.now (listing h bytes.now) records.old }
{
    let room = records.len() / WIDTH;
    match bounds(h, bytes.len(), room) {
        Err(v) => Answer {
            verdict: v,
            count: 0,
        },
        Ok(()) => read_plain(bytes, h, records),
    }
}
