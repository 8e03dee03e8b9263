// A strict tree object as the text that `git mktree -z` takes (docs/FORMAT.md, "Text").
#![tactic(auto)]

ghost use Rattle.std.specs.Prelude.{◌≡◌, Ok, true, [], ◌∷◌, ◌++◌, ◌+◌, ◌≤◌, length};
ghost use Rattle.ground.specs.Verdict.{most_bytes, id_length, stored};
ghost use Rattle.entry.specs.Entry.{entry_of};
ghost use Rattle.rules.specs.Rules.{git_rules};
ghost use Rattle.rules.specs.Gate.{rule_gate};
ghost use Rattle.reading.specs.Listing.{tally};
ghost use Rattle.strict.specs.Strict.{strictly};
ghost use Rattle.hex_of_id.specs.Hex.{hex_of};
ghost use Rattle.tree_text.specs.Text.{front_text, record_text};
ghost use Rattle.tree_export.specs.Export.{text_in, counted_in, export_answer};
ghost use Rattle.tree_export.specs.Code.{Added, settled};

use entry::{Cursor, EntryRecord};
use ground::{Answer, DONE, FEW_RECORDS, FINE, MOST_RECORDS, Verdict, longer};
use hex_of_id::hex_of_id;
use output::{fit, put, put_ended};
use rules::rule_bounds;
use strict::read_tree_strict;
use tree_text::front_of;

// Stores what stands before the id in a record of a mode, as far as there is room, and gives the place past it.
fn put_front(out: &mut [u8], at: usize, mode: usize) -> usize
    requires { at ≤ 1152921504606846976 }
    ensures { Added out.old at (front_text mode) out.new result × (result ≤ at + 14) }
{
    let front = front_of(mode);
    let first = front.bytes;
    let n = front.len;
    put(out, at, &first[..n]);
    at + n
}

// The same of an id's digits and the tab behind them.
fn put_digits(out: &mut [u8], at: usize, id: &[u8]) -> usize
    requires { (id_length (length id.now) ≡ true) × (at ≤ 2305843009213693952) }
    ensures { Added out.old at (hex_of id.now ++ 9 ∷ []) out.new result × (result ≤ at + 65) }
{
    let many = 2 * id.len();
    let mut digits = [0u8; 64];
    hex_of_id(id, &mut digits);
    put_ended(out, at, &digits[..many], b'\t');
    at + many + 1
}

// Stores the record of an entry at a place, as far as there is room, and gives the place past it.
fn put_record(out: &mut [u8], at: usize, s: &[u8], h: usize, e: EntryRecord) -> usize
    requires name_start_bound { (e.name_start ≤ e.name_end) × (e.name_end ≤ length s.now) × (e.id_start + h ≤ length s.now) }
    requires h_value { (id_length h ≡ true) × (length s.now ≤ most_bytes) × (at ≤ 1152921504606846976) }
    ensures { Added out.old at (record_text (entry_of h s.now e)) out.new result × (result ≤ at + 1073741905) }
{
    let start = e.name_start;
    let end = e.name_end;
    let id = e.id_start;
    let last = id + h;
    let hex = put_front(out, at, e.mode);
    let name = put_digits(out, hex, &s[id..last]);
    put_ended(out, name, &s[start..end], 0);
    name + (end - start) + 1
}

// Stores the text of all entries from the front on, as far as there is room, and gives its length.
fn walk(s: &[u8], h: usize, out: &mut [u8]) -> usize
    requires { (id_length h ≡ true) × (length s.now ≤ most_bytes) }
    ensures { Added out.old 0 (text_in h s.now) out.new result }
{
    let mut c = Cursor { at: 0 };
    let mut p: usize = 0;
    for _ in 0..MOST_RECORDS {
        if s.len() <= c.at {
            return p;
        }
        match c.decode(s, h) {
            Ok((e, next)) => {
                p = put_record(out, p, s, h, e);
                c = next;
            }
            Err(_) => return p,
        }
    }
    p
}

// The verdict of strict reading with room enough: with none, 4 says that there are entries and no refusal.
fn settle(bytes: &[u8], h: usize, rules: u16) -> Verdict
    requires { rule_gate rules h (length bytes.now) 0 ≡ Ok tt }
    ensures { result ≡ settled (tally 0 (strictly (git_rules rules) h bytes.now)) }
{
    let mut none = [0usize; 1];
    let a = read_tree_strict(bytes, h, rules, &mut none);
    let verdict = a.verdict;
    let number = verdict.number;
    if number == FEW_RECORDS {
        return FINE;
    }
    verdict
}

// The length of the text, or the refusal of strict reading.
fn measure(bytes: &[u8], h: usize, rules: u16) -> Answer
    requires { rule_gate rules h (length bytes.now) 0 ≡ Ok tt }
    ensures { result ≡ counted_in h bytes.now (tally 0 (strictly (git_rules rules) h bytes.now)) }
{
    let verdict = settle(bytes, h, rules);
    let number = verdict.number;
    if number != DONE {
        return Answer { verdict, count: 0 };
    }
    let mut none = [0u8; 1];
    let count = walk(bytes, h, &mut none);
    Answer {
        verdict: FINE,
        count,
    }
}

// The text of the object's entries, where they keep the strict rules by rule set 1 or 2; a refusal changes none of the bytes lent.
pub fn export_tree(bytes: &[u8], h: usize, rules: u16, out: &mut [u8]) -> Answer
    ensures answer { result ≡ export_answer rules h bytes.now (length out.old) }
    ensures out { out.new ≡ stored (export_answer rules h bytes.now (length out.old)).verdict (text_in h bytes.now) out.old }
{
    match rule_bounds(rules, h, longer(bytes.len(), out.len()), 0) {
        Err(v) => {
            return Answer {
                verdict: v,
                count: 0,
            };
        }
        Ok(()) => {}
    }
    let a = fit(out.len(), measure(bytes, h, rules));
    let number = a.verdict.number;
    if number != DONE {
        return a;
    }
    walk(bytes, h, out);
    a
}
