// A name put into a strict tree object with its mode and id, in the place of any entry of that name (docs/FORMAT.md, "Edits").
// The walk of `edit_walk` measures first and then writes.
#![tactic(auto)]

ghost use Rattle.std.specs.Prelude.{◌≡◌, Ok, ◌≤◌, ◌<◌, length};
ghost use Rattle.ground.specs.Verdict.{verdict, refused, most_bytes, stored};
ghost use Rattle.entry.specs.Entry.{as_written};
ghost use Rattle.rules.specs.Rules.{modes_of, git_rules};
ghost use Rattle.reading.specs.Listing.{tally};
ghost use Rattle.strict.specs.Strict.{strictly};
ghost use Rattle.one_listing.specs.Sound.{is_mode};
ghost use Rattle.edit_walk.specs.Walk.{new_entry};
ghost use Rattle.edit.specs.Table.{put_in};
ghost use Rattle.edit.specs.Edit.{entries_in, new_no, putting, put_answer, put_output};

use edit_walk::walk;
use ground::{
    Answer, BAD_RECORD, BOUND, DONE, FINE, MODE_TEXT, MOST_RECORDS, NAME, SHORT_OUTPUT, Verdict,
    longer,
};
use mode::EntryMode;
use rules::{mode_permitted, name_number, rule_bounds};
use scan::count_to;
use strict::strict_count;

// Whether a rule set permits a mode: by the text that is written for it.
fn is_mode(rules: u16, mode: usize) -> bool
    ensures { result ≡ is_mode (modes_of rules) mode }
{
    if 65535 < mode {
        return false;
    }
    let m = EntryMode {
        internal: mode as u16,
    };
    let text = m.as_bytes();
    let digits = text.bytes;
    let n = text.len;
    mode_permitted(rules, &digits[..n])
}

// The number that refuses a new entry, or 0.
fn new_number(h: usize, rules: u16, mode: usize, name: &[u8], id: &[u8]) -> usize
    ensures { result ≡ new_no (git_rules rules) h (new_entry mode name.now id.now) }
{
    if id.len() != h {
        return BAD_RECORD;
    }
    if is_mode(rules, mode) {
        if count_to(name, 0) != name.len() {
            return NAME;
        }
        return name_number(name);
    }
    MODE_TEXT
}

// Refused, with a place.
fn refuse(number: usize, place: usize) -> Answer
    ensures { result ≡ refused (verdict number place) }
{
    Answer {
        verdict: Verdict {
            number,
            place,
            ..FINE
        },
        count: 0,
    }
}

// Puts an entry into an object of so many entries: its refusal, 2, 8, then the walk that writes.
fn put_counted(
    bytes: &[u8],
    h: usize,
    rules: u16,
    n: usize,
    mode: usize,
    name: &[u8],
    id: &[u8],
    out: &mut [u8],
) -> Answer
    requires bytes_value { tally 0 (strictly (git_rules rules) h bytes.now) ≡ Ok n }
    requires lt_h { (6 < h) × (length bytes.now ≤ most_bytes) × (length name.now ≤ most_bytes) × (length id.now ≤ most_bytes) }
    ensures answer { result ≡ putting (length out.old) (new_no (git_rules rules) h (new_entry mode name.now id.now)) (new_entry mode name.now id.now) (entries_in h bytes.now) }
    ensures out { out.new ≡ stored result.verdict (as_written (put_in (new_entry mode name.now id.now) (entries_in h bytes.now))) out.old }
{
    let number = new_number(h, rules, mode, name, id);
    if number != DONE {
        return refuse(number, 0);
    }
    let m = mode as u16;
    let mut nothing = [0u8; 0];
    let w = walk(bytes, h, n, m, name, id, false, &mut nothing);
    let used = w.used;
    if MOST_RECORDS <= w.kept {
        return refuse(BOUND, 0);
    }
    if out.len() < used {
        return refuse(SHORT_OUTPUT, used);
    }
    walk(bytes, h, n, m, name, id, false, out);
    Answer {
        verdict: FINE,
        count: used,
    }
}

// Puts a name with its mode and id into a strict object, in the place of any entry of that name.
pub fn put_in_tree(
    bytes: &[u8],
    h: usize,
    rules: u16,
    mode: usize,
    name: &[u8],
    id: &[u8],
    out: &mut [u8],
) -> Answer
    ensures answer { result ≡ put_answer rules h bytes.now (new_entry mode name.now id.now) (length out.old) }
    ensures out { out.new ≡ put_output rules h bytes.now (new_entry mode name.now id.now) out.old }
{
    let most = longer(longer(bytes.len(), name.len()), longer(id.len(), out.len()));
    match rule_bounds(rules, h, most, 0) {
        Err(v) => Answer {
            verdict: v,
            count: 0,
        },
        Ok(()) => match strict_count(bytes, h, rules) {
            Err(w) => Answer {
                verdict: w,
                count: 0,
            },
            Ok(n) => put_counted(bytes, h, rules, n, mode, name, id, out),
        },
    }
}
