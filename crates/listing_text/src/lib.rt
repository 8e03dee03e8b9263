// The text of a listing, made from an object that is read plainly, with ids of 20 or 32 bytes (docs/FORMAT.md, "Examples").
#![tactic(auto)]

ghost use Rattle.std.specs.Prelude.{◌≡◌, true, ◌+◌, ◌-◌, ◌*◌, ◌<◌, ◌≤◌, length, take, drop};
ghost use Rattle.std.proofs.lemmas.List.Edits.{sets};
ghost use Rattle.ground.specs.Verdict.{id_length};
ghost use Rattle.entry.specs.Record.{width, records_of};
ghost use Rattle.loose_header.specs.Header.{decimal};
ghost use Rattle.hex_of_id.specs.Hex.{hex_of};
ghost use Rattle.listing_text.specs.Text.{mode_words, line, lines, head, refusal, longest, text_of, text, listed_of, listed};
ghost use Rattle.listing_text.specs.Code.{Added, room};

use entry::EntryRecord;
use entry_record::{WIDTH, entry_at};
use ground::{BOUND, DONE, FINE, ID_LENGTH, Verdict};
use hex_letter::digit_of;
use loose_header::decimal_of;
use mode::EntryMode;
use output::put;
use reading::read_tree;

// The longest object that is listed, and the records that the most entries need: an entry has at least 22 bytes.
pub const LONGEST: usize = 65536;

pub const ROOM: usize = 2978;

// The verdict on an object, and how long its text is.
#[derive(Clone, Copy)]
pub struct Listed {
    pub verdict: Verdict,
    pub len: usize,
}

// Stores a piece at a place, as far as there is room, and gives the place past it.
fn add(out: &mut [u8], at: usize, piece: &[u8]) -> usize
    requires { (at ≤ 1099511627776) × (length piece.now ≤ 65536) }
    ensures { Added out.old at piece.now out.new result }
{
    put(out, at, piece);
    at + piece.len()
}

// A number, in decimal digits.
fn add_number(out: &mut [u8], at: usize, n: usize) -> usize
    requires { at ≤ 1099511627776 }
    ensures { Added out.old at (decimal n) out.new result × (result ≤ at + 20) }
{
    let d = decimal_of(n as u64);
    let from = d.at;
    let digits = d.text;
    add(out, at, &digits[from..20])
}

// Bytes in hex, two digits each.
fn add_hex(out: &mut [u8], at: usize, bytes: &[u8]) -> usize
    requires { (at ≤ 549755813888) × (length bytes.now ≤ 65536) }
    ensures { Added out.old at (hex_of bytes.now) out.new result × (result ≤ at + 131072) }
{
    let mut p = at;
    for b in bytes {
        p = add(out, p, &[digit_of(*b / 16), digit_of(*b)]);
    }
    p
}

// The bytes from a place on, at most so many.
fn piece(s: &[u8], from: usize, n: usize) -> &[u8]
    ensures { (result.now ≡ take n (drop from s.now)) × (length result.now ≤ n) × (length result.now ≤ length s.now) }
{
    if s.len() <= from {
        return &s[..0];
    }
    if s.len() - from < n {
        return &s[from..];
    }
    let to = from + n;
    &s[from..to]
}

// Whether ids can have so many bytes.
fn is_id_length(h: usize) -> bool
    ensures { result ≡ id_length h }
{
    h == 20 || h == 32
}

// A mode's text and the word of its kind, each with a space after it.
fn add_mode(out: &mut [u8], at: usize, mode: usize) -> usize
    requires { at ≤ 549755813888 }
    ensures { Added out.old at (mode_words mode) out.new result × (result ≤ at + 14) }
{
    let m = EntryMode {
        internal: (mode % 65536) as u16,
    };
    let t = m.as_bytes();
    let digits = t.bytes;
    let n = t.len;
    let w = m.as_str();
    let letters = w.bytes;
    let k = w.len;
    let p = add(out, at, piece(&digits, 0, n));
    let q = add(out, p, b" ");
    let u = add(out, q, piece(&letters, 0, k));
    add(out, u, b" ")
}

fn add_line(out: &mut [u8], at: usize, h: usize, s: &[u8], e: EntryRecord) -> usize
    requires { (at ≤ 274877906944) × (h ≤ 32) × (length s.now ≤ longest) }
    ensures { Added out.old at (line h s.now e) out.new result × (result ≤ at + 65664) }
{
    let start = e.name_start;
    let n = e.name_end.saturating_sub(start);
    let p = add_mode(out, at, e.mode);
    let q = add_hex(out, p, piece(s, e.id_start, h));
    let u = add(out, q, b" ");
    let w = add(out, u, piece(s, start, n));
    add(out, w, b"\n")
}

// The lines of all records.
fn add_lines(out: &mut [u8], at: usize, h: usize, s: &[u8], records: &[usize]) -> usize
    requires { (at ≤ 64) × (h ≤ 32) × (length s.now ≤ longest) × (length records.now ≤ room * width) }
    ensures { Added out.old at (lines h s.now (records_of records.now)) out.new result }
{
    let n = records.len() / WIDTH;
    let mut p = at;
    for i in 0..n {
        p = add_line(out, p, h, s, entry_at(records, i));
    }
    p
}

fn add_head(out: &mut [u8], n: usize) -> usize
    ensures { Added out.old 0 (head n) out.new result × (result ≤ 0 + 64) }
{
    let p = add(out, 0, b"entries ");
    let q = add_number(out, p, n);
    add(out, q, b"\n")
}

fn add_refusal(out: &mut [u8], v: Verdict) -> usize
    ensures { Added out.old 0 (refusal v) out.new result }
{
    let p = add(out, 0, b"refused ");
    let q = add_number(out, p, v.number);
    let u = add(out, q, b" at ");
    let w = add_number(out, u, v.place);
    add(out, w, b"\n")
}

// An object that is not too long, with room for its records.
fn list_into(object: &[u8], h: usize, records: &mut [usize], out: &mut [u8]) -> Listed
    requires { (id_length h ≡ true) × (length object.now ≤ longest) × (length records.old ≡ room * width) }
    ensures listed { result ≡ listed_of h object.now }
    ensures out { out.new ≡ sets out.old 0 (text_of h object.now) }
{
    let a = read_tree(object, h, records);
    let verdict = a.verdict;
    let number = verdict.number;
    if number != DONE {
        let len = add_refusal(out, verdict);
        return Listed { verdict, len };
    }
    let n = a.count;
    let all = n * WIDTH;
    let at = add_head(out, n);
    let len = add_lines(out, at, h, object, &records[..all]);
    Listed { verdict, len }
}

// An object that is not too long.
fn list_short(object: &[u8], h: usize, out: &mut [u8]) -> Listed
    requires { (id_length h ≡ true) × (length object.now ≤ longest) }
    ensures listed { result ≡ listed_of h object.now }
    ensures out { out.new ≡ sets out.old 0 (text_of h object.now) }
{
    let mut records = [0usize; ROOM * WIDTH];
    list_into(object, h, &mut records, out)
}

// An object of any length.
fn list_any(object: &[u8], h: usize, out: &mut [u8]) -> Listed
    requires { id_length h ≡ true }
    ensures listed { result ≡ listed_of h object.now }
    ensures out { out.new ≡ sets out.old 0 (text_of h object.now) }
{
    if object.len() <= LONGEST {
        return list_short(object, h, out);
    }
    let verdict = Verdict {
        number: BOUND,
        ..FINE
    };
    let len = add_refusal(out, verdict);
    Listed { verdict, len }
}

// The text of an object's listing to the front of a lent output, as far as there is room.
pub fn put_listing(object: &[u8], h: usize, out: &mut [u8]) -> Listed
    ensures listed { result ≡ listed h object.now }
    ensures out { out.new ≡ sets out.old 0 (text h object.now) }
{
    if is_id_length(h) {
        return list_any(object, h, out);
    }
    let verdict = Verdict {
        number: ID_LENGTH,
        ..FINE
    };
    let len = add_refusal(out, verdict);
    Listed { verdict, len }
}
