// From a tree object that can be read, one that rule set 2 accepts, and a list of what was done to each entry
// (docs/FORMAT.md, "Mending"). The call's own memory holds places of entries: sorted by their names to see which name comes again,
// then by Git's order to write those that are kept.
#![tactic(auto)]

ghost use Rattle.std.specs.Prelude.{◌≡◌, Ok, true, false, [], ◌∷◌, ◌++◌, ◌+◌, ◌*◌, ◌/◌, ◌≤◌, ◌<◌, length, take, drop, set};
ghost use Rattle.std.proofs.lemmas.List.Edits.{sets};
ghost use Rattle.ground.specs.Basics.{pick};
ghost use Rattle.ground.specs.Verdict.{verdict, most_bytes, most_records, stored};
ghost use Rattle.entry.specs.Record.{name_of};
ghost use Rattle.entry.specs.Decode.{decode};
ghost use Rattle.reading.specs.Listing.{listing, tally, records_in};
ghost use Rattle.reading.specs.Whole.{in_room as noRoom};
ghost use Rattle.keys.specs.Key.{key_at, below_by};
ghost use Rattle.sorting.specs.Sort.{Ascends, sort_by};
ghost use Rattle.fate.specs.Fate.{own_text};
ghost use Rattle.mend.specs.Mend.{fates_of, mended, not_mended, in_room, counted_answer, mend_answer};
ghost use Rattle.mend_kept.specs.Code.{Inside, chosen, element_of, elements, Lowest, Known, has_name, earlier, code_fate, code_fates, kept_size, code_size, bytes_at, all_bytes};

use entry::{Cursor, EntryRecord};
use entry_record::is_folder;
use fate::{fate_of, may_stay, own_text};
use ground::{
    Answer, DONE, FEW_RECORDS, FINE, MOST_RECORDS, SHORT_OUTPUT, Verdict, bounds, longer,
};
use keys::below;
use output::{put, put_ended};
use reading::read_tree;
use scan::same_bytes;
use sorting::sort_front;

// The answer: the bytes written, and the entries that the object has; both 0 on a refusal.
#[derive(Clone, Copy)]
pub struct Mended {
    pub verdict: Verdict,
    pub count: usize,
    pub entries: usize,
}

// Whether an entry is to be gathered: first by itself, then by what is done to it.
fn choose(s: &[u8], fates: &[usize], second: bool, n: usize, e: EntryRecord) -> bool
    requires { Inside (length s.now) e }
    ensures { result ≡ chosen second s.now fates.now n e }
{
    if second {
        return n < fates.len() && fates[n] < 2;
    }
    let start = e.name_start;
    let end = e.name_end;
    may_stay(&s[start..end], e.mode)
}

// The element of an entry: twice its place, and the second time one more for a folder.
fn element(second: bool, e: EntryRecord) -> u32
    requires { e.text_start < most_bytes }
    ensures { result ≡ element_of second e }
{
    let twice = e.text_start * 2;
    if second && is_folder(e) {
        return (twice + 1) as u32;
    }
    twice as u32
}

// Stores a value at a place of a list, where there is room.
fn put_at<T: Copy>(list: &mut [T], n: usize, x: T)
    ensures { list.new ≡ set list.old n x }
{
    if n < list.len() {
        list[n] = x;
    }
}

// Stores an element behind m others, if it is taken: how many there are then.
fn push(list: &mut [u32], m: usize, taken: bool, x: u32) -> usize
    requires { m < most_records }
    ensures value { result ≡ pick taken (m + 1) m }
    ensures list_after { list.new ≡ pick taken (set list.old m x) list.old }
{
    if taken {
        put_at(list, m, x);
        return m + 1;
    }
    m
}

// The elements of the entries that are to be gathered, from the front of a list: how many there are.
fn gather(s: &[u8], h: usize, fates: &[usize], second: bool, list: &mut [u32]) -> usize
    requires { length s.now ≤ most_bytes }
    ensures value { result ≡ length (elements second s.now fates.now 0 (records_in (listing h s.now))) }
    ensures list_after { list.new ≡ sets list.old 0 (elements second s.now fates.now 0 (records_in (listing h s.now))) }
{
    let mut c = Cursor { at: 0 };
    let mut m: usize = 0;
    for n in 0..MOST_RECORDS {
        if s.len() <= c.at {
            return m;
        }
        match c.decode(s, h) {
            Err(_) => return m,
            Ok((e, next)) => {
                let taken = choose(s, fates, second, n, e);
                let x = element(second, e);
                m = push(list, m, taken, x);
                c = next;
            }
        }
    }
    m
}

// How many elements of a sorted list stand below one.
fn search(s: &[u8], list: &[u32], x: u32) -> usize
    requires { Ascends (below_by (key_at s.now 32 0)) list.now }
    ensures { Lowest (below_by (key_at s.now 32 0)) list.now x result }
{
    // The element itself is met once in nearly each search, and nothing stands below itself.
    list.partition_point(|y| *y != x && below(s, b' ', 0, *y, x))
}

// Whether the entry of an element has a name.
fn same_name(s: &[u8], h: usize, y: u32, name: &[u8]) -> bool
    ensures { result ≡ has_name s.now name.now (decode h (y / 2) (drop (y / 2) s.now)) }
{
    let c = Cursor { at: y as usize / 2 };
    match c.decode(s, h) {
        Err(_) => false,
        Ok((e, _)) => {
            let start = e.name_start;
            let end = e.name_end;
            same_bytes(&s[start..end], name)
        }
    }
}

// Whether an element before this one has its name.
fn repeated(s: &[u8], h: usize, list: &[u32], x: u32, name: &[u8]) -> bool
    requires known { Known h s.now list.now }
    requires x_value { key_at s.now 32 0 x ≡ name.now }
    ensures { result ≡ earlier (key_at s.now 32 0) list.now x }
{
    let k = search(s, list, x);
    if k == 0 {
        return false;
    }
    let y = list[k - 1];
    same_name(s, h, y, name)
}

// What is done to an entry, with the elements of all that may stay sorted by name.
fn entry_fate(s: &[u8], h: usize, list: &[u32], e: EntryRecord) -> usize
    requires known { Known h s.now list.now }
    requires inside { Inside (length s.now) e }
    requires text_start_bound { e.text_start < most_bytes }
    requires e_value { key_at s.now 32 0 (element_of false e) ≡ name_of s.now e }
    ensures { result ≡ code_fate s.now list.now e }
{
    let x = element(false, e);
    let from = e.text_start;
    let start = e.name_start;
    let space = start - 1;
    let end = e.name_end;
    let before = repeated(s, h, list, x, &s[start..end]);
    fate_of(&s[from..space], &s[start..end], e.mode, before)
}

// What an entry adds to the new object.
fn kept_size(fate: usize, h: usize, e: EntryRecord) -> usize
    requires { (e.name_start ≤ e.id_start) × (e.id_start ≤ most_bytes) × (h ≤ 32) }
    ensures { result ≡ kept_size h fate e }
{
    if fate < 2 {
        let own = own_text(e.mode);
        let n = own.len;
        let all = e.id_start + h - e.name_start;
        return n + 1 + all;
    }
    0
}

// What is done to each entry, as far as there is room: the size of the new object.
fn settle(s: &[u8], h: usize, list: &[u32], fates: &mut [usize]) -> usize
    requires s_len_bound { length s.now ≤ most_bytes }
    requires le_h { (20 ≤ h) × (h ≤ 32) }
    requires known { Known h s.now list.now }
    ensures value { result ≡ code_size h s.now list.now (records_in (listing h s.now)) }
    ensures fates_after { fates.new ≡ sets fates.old 0 (code_fates s.now list.now (records_in (listing h s.now))) }
{
    let mut c = Cursor { at: 0 };
    let mut size: usize = 0;
    for n in 0..MOST_RECORDS {
        if s.len() <= c.at {
            return size;
        }
        match c.decode(s, h) {
            Err(_) => return size,
            Ok((e, next)) => {
                let fate = entry_fate(s, h, list, e);
                put_at(fates, n, fate);
                size += kept_size(fate, h, e);
                c = next;
            }
        }
    }
    size
}

// Stores the text of a kind's own mode and a space at a place, as far as there is room, and gives the place past them.
fn put_own(out: &mut [u8], at: usize, mode: usize) -> usize
    requires { at ≤ 4611686018427387904 }
    ensures value { (result ≡ at + length (own_text mode) + 1) × (result ≤ at + 7) }
    ensures out_after { out.new ≡ sets out.old at (own_text mode ++ 32 ∷ []) }
{
    let own = own_text(mode);
    let digits = own.bytes;
    let n = own.len;
    put_ended(out, at, &digits[..n], b' ');
    at + n + 1
}

// Writes the entry of an element at a place, with its kind's own mode, and gives the place past it.
fn write_one(out: &mut [u8], at: usize, s: &[u8], h: usize, x: u32) -> usize
    requires s_len_bound { length s.now ≤ most_bytes }
    requires at_bound { at ≤ 4611686018427387904 }
    ensures value { result ≡ at + length (bytes_at h s.now x) }
    ensures out_after { out.new ≡ sets out.old at (bytes_at h s.now x) }
{
    let c = Cursor { at: x as usize / 2 };
    match c.decode(s, h) {
        Err(_) => at,
        Ok((e, next)) => {
            let name = put_own(out, at, e.mode);
            let start = e.name_start;
            let end = next.at;
            put(out, name, &s[start..end]);
            name + (end - start)
        }
    }
}

// Writes the entries of a list of elements.
fn write_all(out: &mut [u8], s: &[u8], h: usize, list: &[u32])
    requires s_len_bound { length s.now ≤ most_bytes }
    requires list_len_bound { length list.now ≤ most_records }
    ensures { out.new ≡ sets out.old 0 (all_bytes h s.now list.now) }
{
    let mut at: usize = 0;
    for x in list {
        at = write_one(out, at, s, h, *x);
    }
}

// The elements of the entries that are to be gathered, sorted, from the front of a list: how many there are.
fn sorted(s: &[u8], h: usize, fates: &[usize], second: bool, list: &mut [u32]) -> usize
    requires s_len_bound { length s.now ≤ most_bytes }
    requires s_in_bounds { length (elements second s.now fates.now 0 (records_in (listing h s.now))) ≤ length list.old }
    ensures { (result ≤ length list.new) × (take result list.new ≡ sort_by (below_by (key_at s.now 32 0)) (elements second s.now fates.now 0 (records_in (listing h s.now)))) }
{
    let m = gather(s, h, fates, second, list);
    sort_front(s, b' ', 0, list, m);
    m
}

// Writes the entries that are kept, in Git's order.
fn write_sorted(s: &[u8], h: usize, fates: &[usize], out: &mut [u8], list: &mut [u32])
    requires { (length s.now ≤ most_bytes) × (length (elements true s.now fates.now 0 (records_in (listing h s.now))) ≤ length list.old) × (length list.old ≤ most_records) }
    ensures { out.new ≡ sets out.old 0 (all_bytes h s.now (sort_by (below_by (key_at s.now 32 0)) (elements true s.now fates.now 0 (records_in (listing h s.now))))) }
{
    let k = sorted(s, h, fates, true, list);
    write_all(out, s, h, &list[..k]);
}

// The size of the new object.
fn measure(s: &[u8], h: usize, list: &[u32]) -> usize
    requires s_len_bound { length s.now ≤ most_bytes }
    requires le_h { (20 ≤ h) × (h ≤ 32) }
    requires known { Known h s.now list.now }
    ensures { result ≡ code_size h s.now list.now (records_in (listing h s.now)) }
{
    let mut none = [0usize; 1];
    settle(s, h, list, &mut none)
}

// Refused: the new object needs so much room.
fn too_short(need: usize) -> Mended
    ensures { result ≡ not_mended (verdict 8 need) }
{
    no_mending(Verdict {
        number: SHORT_OUTPUT,
        place: need,
        ..FINE
    })
}

// Mends an object of so many entries, with room for as many elements.
fn mend_with(
    s: &[u8],
    h: usize,
    count: usize,
    fates: &mut [usize],
    out: &mut [u8],
    list: &mut [u32],
) -> Mended
    requires s_len_bound { (length s.now ≤ most_bytes) × (20 ≤ h) × (h ≤ 32) }
    requires s_value { tally 0 (listing h s.now) ≡ Ok count }
    requires count_in_bounds { (count ≤ length fates.old) × (count ≤ length list.old) × (length list.old ≤ most_records) }
    ensures answer { result ≡ in_room (length out.old) (length (mended h s.now)) count }
    ensures fates { fates.new ≡ stored result.verdict (fates_of h s.now) fates.old }
    ensures out { out.new ≡ stored result.verdict (mended h s.now) out.old }
{
    let m = sorted(s, h, fates, false, list);
    let need = measure(s, h, &list[..m]);
    if out.len() < need {
        return too_short(need);
    }
    settle(s, h, &list[..m], fates);
    write_sorted(s, h, fates, out, list);
    Mended {
        verdict: FINE,
        count: need,
        entries: count,
    }
}

// With room for N entries in a list of its own. N is a parameter, so no proof computes so long a list.
fn mend_own<const N: usize>(
    s: &[u8],
    h: usize,
    count: usize,
    fates: &mut [usize],
    out: &mut [u8],
) -> Mended
    requires s_len_bound { (length s.now ≤ most_bytes) × (20 ≤ h) × (h ≤ 32) }
    requires s_value { tally 0 (listing h s.now) ≡ Ok count }
    requires count_in_bounds { (count ≤ length fates.old) × (count ≤ N) × (N ≤ most_records) }
    ensures answer { result ≡ in_room (length out.old) (length (mended h s.now)) count }
    ensures fates { fates.new ≡ stored result.verdict (fates_of h s.now) fates.old }
    ensures out { out.new ≡ stored result.verdict (mended h s.now) out.old }
{
    let mut list = [0u32; N];
    mend_with(s, h, count, fates, out, &mut list)
}

// With room for all: four mebibytes of the stack. The call of itself is never reached. It is there because the compiler
// lays no function that calls itself into its callers: only such an object takes this one's stack.
fn mend_large(s: &[u8], h: usize, count: usize, fates: &mut [usize], out: &mut [u8]) -> Mended
    requires s_len_bound { (length s.now ≤ most_bytes) × (20 ≤ h) × (h ≤ 32) }
    requires s_value { tally 0 (listing h s.now) ≡ Ok count }
    requires count_in_bounds { (count ≤ length fates.old) × (count ≤ most_records) }
    ensures answer { result ≡ in_room (length out.old) (length (mended h s.now)) count }
    ensures fates { fates.new ≡ stored result.verdict (fates_of h s.now) fates.old }
    ensures out { out.new ≡ stored result.verdict (mended h s.now) out.old }
{
    if MOST_RECORDS < count {
        return mend_large(s, h, count, fates, out);
    }
    mend_own::<1048576>(s, h, count, fates, out)
}

// Refused: nothing is written.
fn no_mending(v: Verdict) -> Mended
    ensures { result ≡ not_mended v }
{
    Mended {
        verdict: v,
        count: 0,
        entries: 0,
    }
}

// Mends an object, once it was read with no room for records.
fn mend_read(s: &[u8], h: usize, a: Answer, fates: &mut [usize], out: &mut [u8]) -> Mended
    requires s_len_bound { (length s.now ≤ most_bytes) × (20 ≤ h) × (h ≤ 32) × (length fates.old ≤ most_records) }
    requires a_value { a ≡ noRoom 0 (tally 0 (listing h s.now)) }
    ensures answer { result ≡ counted_answer h s.now (length fates.old) (length out.old) (tally 0 (listing h s.now)) }
    ensures fates { fates.new ≡ stored result.verdict (fates_of h s.now) fates.old }
    ensures out { out.new ≡ stored result.verdict (mended h s.now) out.old }
{
    let number = a.verdict.number;
    if number == DONE {
        return mend_own::<1024>(s, h, 0, fates, out);
    }
    if number != FEW_RECORDS {
        return no_mending(a.verdict);
    }
    let n = a.verdict.place;
    if fates.len() < n {
        return no_mending(a.verdict);
    }
    if n <= 1024 {
        return mend_own::<1024>(s, h, n, fates, out);
    }
    mend_large(s, h, n, fates, out)
}

// Mends an object: what was done to each entry, a number each, and the new object; a refusal changes nothing lent.
// With more than 1,024 entries it takes four mebibytes of the stack.
pub fn mend_tree(bytes: &[u8], h: usize, fates: &mut [usize], out: &mut [u8]) -> Mended
    ensures answer { result ≡ mend_answer h bytes.now (length fates.old) (length out.old) }
    ensures fates { fates.new ≡ stored (mend_answer h bytes.now (length fates.old) (length out.old)).verdict (fates_of h bytes.now) fates.old }
    ensures out { out.new ≡ stored (mend_answer h bytes.now (length fates.old) (length out.old)).verdict (mended h bytes.now) out.old }
{
    match bounds(h, longer(bytes.len(), out.len()), fates.len()) {
        Err(v) => no_mending(v),
        Ok(()) => {
            let mut none = [0usize; 1];
            let a = read_tree(bytes, h, &mut none);
            mend_read(bytes, h, a, fates, out)
        }
    }
}
