// A strict tree object from the text that `git ls-tree -z` prints, its records in any order (docs/FORMAT.md, "Text"). Lent memory holds
// the places of records, which are put in Git's order to see which name comes again and to write them.
#![tactic(auto)]

ghost use Rattle.std.specs.Prelude.{◌≡◌, true, ◌∷◌, [], ◌++◌, ◌+◌, ◌*◌, ◌/◌, ◌≤◌, ◌<◌, length, set};
ghost use Rattle.std.proofs.lemmas.List.Edits.{sets};
ghost use Rattle.ground.specs.Verdict.{most_bytes, most_records, id_length, stored};
ghost use Rattle.output.specs.Output.{fitted};
ghost use Rattle.mode.specs.Write.{write_mode};
ghost use Rattle.hex_digits.specs.Hex.{is_hex};
ghost use Rattle.id_of_hex.specs.Id.{bytes_of};
ghost use Rattle.entry.specs.Entry.{entry_bytes};
ghost use Rattle.rules.specs.Rules.{modes_of};
ghost use Rattle.text_record.specs.Record.{front_mode, text_number, entry_in};
ghost use Rattle.keys.specs.Key.{key_at, below_by};
ghost use Rattle.sorting.specs.Sort.{sort_by};
ghost use Rattle.text_import.specs.Import.{texts, ending, imported, counted_of};
ghost use Rattle.text_import.specs.Code.{element_of, elements_in, halted, gathered, AllRead, all_bytes};
ghost use Rattle.text_import.specs.Lent.{lent_by, lent_answer, left_by, lent_list};

use ground::{Answer, BOUND, DONE, FEW_RECORDS, FINE, MOST_RECORDS, SHORT_OUTPUT, Verdict, bounds};
use id_of_hex::id_of_hex;
use mode::EntryMode;
use output::{put, put_ended};
use text_form::name_from;
use text_pairs::judge_list;
use text_record::{front_mode, name_end, record_number};

// The element of a record: twice its place, and one more for a folder.
fn element(b: &[u8], rules: u16, at: usize) -> u32
    requires { at < most_bytes }
    ensures { result ≡ element_of true at (front_mode (modes_of rules) b.now) }
{
    let twice = at * 2;
    let m = EntryMode {
        internal: front_mode(b, rules),
    };
    if m.is_tree() {
        return (twice + 1) as u32;
    }
    twice as u32
}

// Stores an element at a place of a list, where there is room.
fn put_element(list: &mut [u32], n: usize, x: u32)
    ensures { list.new ≡ set list.old n x }
{
    if n < list.len() {
        list[n] = x;
    }
}

// An answer of a number, a place and a count.
fn halt(number: usize, place: usize, count: usize) -> Answer
    ensures { result ≡ halted number place count }
{
    Answer {
        verdict: Verdict {
            number,
            place,
            ..FINE
        },
        count,
    }
}

// Reads the text record by record: how it ended, how many records there are, and their elements from the front of a list on.
fn gather(text: &[u8], h: usize, rules: u16, list: &mut [u32]) -> Answer
    requires { length text.now ≤ most_bytes }
    ensures value { result ≡ gathered (texts rules h text.now) }
    ensures list_after { list.new ≡ sets list.old 0 (elements_in (texts rules h text.now)) }
{
    let mut at: usize = 0;
    let mut n: usize = 0;
    // By a cursor that goes past each record; n is the count that is answered, also where the text ends.
    while at < text.len() {
        if MOST_RECORDS <= n {
            return halt(BOUND, 0, n);
        }
        let number = record_number(&text[at..], h, rules);
        if number != DONE {
            return halt(number, at, n);
        }
        let x = element(&text[at..], rules, at);
        put_element(list, n, x);
        at += name_end(&text[at..], h) + 1;
        n += 1;
    }
    Answer {
        verdict: FINE,
        count: n,
    }
}

// Stores the id that 2H digits say at a place, as far as there is room.
fn put_id(out: &mut [u8], at: usize, digits: &[u8], h: usize)
    requires { (is_hex digits.now ≡ true) × (length digits.now ≡ 2 * h) × (id_length h ≡ true) }
    ensures { out.new ≡ sets out.old at (bytes_of digits.now) }
{
    let mut id = [0u8; 32];
    id_of_hex(digits, &mut id);
    put(out, at, &id[..h]);
}

// Stores a mode, a space, a name and NUL at a place, as far as there is room, and gives the place past them.
fn put_named(out: &mut [u8], at: usize, mode: u16, name: &[u8]) -> usize
    requires { (at ≤ 4611686018427387904) × (length name.now ≤ most_bytes) }
    ensures value { result ≡ at + length (write_mode mode ++ 32 ∷ (name.now ++ 0 ∷ [])) }
    ensures out_after { out.new ≡ sets out.old at (write_mode mode ++ 32 ∷ (name.now ++ 0 ∷ [])) }
{
    let m = EntryMode { internal: mode };
    let shown = m.as_bytes();
    let digits = shown.bytes;
    let n = shown.len;
    let from = at + n + 1;
    put_ended(out, at, &digits[..n], b' ');
    put_ended(out, from, name, 0);
    from + name.len() + 1
}

// Stores the entry that the record at the front of some bytes says at a place, as far as there is room, and gives the place past it.
fn write_one(out: &mut [u8], at: usize, b: &[u8], h: usize, rules: u16) -> usize
    requires b_value { (text_number rules h b.now ≡ 0) × (id_length h ≡ true) }
    requires at_bound { (at ≤ 4611686018427387904) × (length b.now ≤ most_bytes) }
    ensures value { result ≡ at + length (entry_bytes (entry_in rules h b.now)) }
    ensures out_after { out.new ≡ sets out.old at (entry_bytes (entry_in rules h b.now)) }
{
    let from = name_from(b, h);
    let end = name_end(b, h);
    let tab = from - 1;
    let id = tab - 2 * h;
    let last = put_named(out, at, front_mode(b, rules), &b[from..end]);
    put_id(out, last, &b[id..tab], h);
    last + h
}

// The place of an element.
fn place_of(x: u32) -> usize
    ensures { result ≡ x / 2 }
{
    x as usize / 2
}

// Stores the entries of a list of elements from the front on, as far as there is room: their length.
fn write_all(out: &mut [u8], text: &[u8], h: usize, rules: u16, list: &[u32]) -> usize
    requires text_len_bound { (length text.now ≤ most_bytes) × (id_length h ≡ true) × (length list.now ≤ most_records) }
    requires all_read { AllRead rules h text.now list.now }
    ensures value { result ≡ length (all_bytes rules h text.now list.now) }
    ensures out_after { out.new ≡ sets out.old 0 (all_bytes rules h text.now list.now) }
{
    let mut at: usize = 0;
    for x in list {
        let place = place_of(*x);
        at = write_one(out, at, &text[place..], h, rules);
    }
    at
}

// How many bytes the object has.
fn measure(text: &[u8], h: usize, rules: u16, list: &[u32]) -> usize
    requires text_len_bound { (length text.now ≤ most_bytes) × (id_length h ≡ true) × (length list.now ≤ most_records) }
    requires all_read { AllRead rules h text.now list.now }
    ensures { result ≡ length (all_bytes rules h text.now list.now) }
{
    let mut none = [0u8; 1];
    write_all(&mut none, text, h, rules, list)
}

// Imports a text whose elements are at hand: they are put in Git's order, judged and written.
fn finish(text: &[u8], h: usize, rules: u16, out: &mut [u8], list: &mut [u32]) -> Answer
    requires text_len_bound { (length text.now ≤ most_bytes) × (id_length h ≡ true) × ((ending (texts rules h text.now)).number ≡ 0) }
    requires list_value { list.old ≡ elements_in (texts rules h text.now) }
    ensures answer { result ≡ fitted (length out.old) (counted_of (texts rules h text.now)) }
    ensures out { out.new ≡ stored (fitted (length out.old) (counted_of (texts rules h text.now))).verdict (imported (texts rules h text.now)) out.old }
    ensures list { list.new ≡ sort_by (below_by (key_at text.now 9 0)) list.old }
{
    let verdict = judge_list(text, list);
    let number = verdict.number;
    if number != DONE {
        return Answer { verdict, count: 0 };
    }
    let need = measure(text, h, rules, list);
    if out.len() < need {
        return halt(SHORT_OUTPUT, need, 0);
    }
    write_all(out, text, h, rules, list);
    Answer {
        verdict: FINE,
        count: need,
    }
}

// Imports a text, once its bounds are seen.
fn import_open(text: &[u8], h: usize, rules: u16, out: &mut [u8], list: &mut [u32]) -> Answer
    requires { (id_length h ≡ true) × (length text.now ≤ most_bytes) }
    ensures answer { result ≡ lent_by (texts rules h text.now) (length out.old) (length list.old) }
    ensures out { out.new ≡ stored (lent_by (texts rules h text.now) (length out.old) (length list.old)).verdict (imported (texts rules h text.now)) out.old }
    ensures list { list.new ≡ left_by text.now (texts rules h text.now) list.old }
{
    let a = gather(text, h, rules, list);
    let verdict = a.verdict;
    let number = verdict.number;
    if number != DONE {
        return Answer { verdict, count: 0 };
    }
    let n = a.count;
    if list.len() < n {
        return halt(FEW_RECORDS, n, 0);
    }
    finish(text, h, rules, out, &mut list[..n])
}

// The object of a text's records, with memory lent for an element of each: 4 with their number where that is too short. A refusal changes
// none of the bytes lent.
pub fn import_lent(text: &[u8], h: usize, rules: u16, out: &mut [u8], list: &mut [u32]) -> Answer
    ensures answer { result ≡ lent_answer rules h text.now (length out.old) (length list.old) }
    ensures out { out.new ≡ stored (lent_answer rules h text.now (length out.old) (length list.old)).verdict (imported (texts rules h text.now)) out.old }
    ensures list { list.new ≡ lent_list rules h text.now list.old }
{
    match bounds(h, text.len(), 0) {
        Err(v) => Answer {
            verdict: v,
            count: 0,
        },
        Ok(()) => import_open(text, h, rules, out, list),
    }
}
