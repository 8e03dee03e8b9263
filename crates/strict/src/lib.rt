// A whole tree object that keeps the strict rules, into lent records (docs/FORMAT.md, "Strict reading").
#![tactic(auto)]

ghost use Rattle.std.specs.Prelude.{◌≡◌, Err, true, ◌≤◌, length};
ghost use Rattle.ground.specs.Scan.{free_of};
ghost use Rattle.ground.specs.Verdict.{verdict, most_bytes};
ghost use Rattle.entry.specs.Record.{name_of};
ghost use Rattle.rules.specs.Rules.{git_rules};
ghost use Rattle.reading.specs.Listing.{tally};
ghost use Rattle.strict.specs.Strict.{strictly, strict_count, strict_answer, strict_records};
ghost use Rattle.strict.specs.Code.{Within, LastWithin, NameKept, entry_no, seen_at, after_at, marks_after, Roomy};

use doubles::{Misplaced, place_entry};
use entry::{Cursor, EntryRecord};
use entry_record::{WIDTH, is_folder};
use ground::{
    Answer, BOUND, DONE, FINE, MODE_TEXT, MOST_BYTES, MOST_RECORDS, ORDER, SAME_NAME, Verdict,
};
use mode_code::quick_code;
use reading::finish;
use rules::{mode_permitted, name_number, reserved_number, rule_bounds};
use scan::find_nul_or_slash;

// Where an entry stands after the one before, with n names open among the marks.
fn after_entry(
    s: &[u8],
    marks: &mut [u32],
    n: usize,
    last: Option<EntryRecord>,
    e: EntryRecord,
) -> Result<usize, Misplaced>
    requires last_within { LastWithin (length s.now) last }
    requires name_start_bound { (e.name_start ≤ e.name_end) × (e.name_end ≤ length s.now) }
    ensures placed { result ≡ after_at s.now marks.old n last e }
    ensures marks { marks.new ≡ marks_after s.now marks.old n last e }
{
    match last {
        None => Ok(0),
        Some(p) => {
            let from = p.name_start;
            let to = p.name_end;
            let start = e.name_start;
            let end = e.name_end;
            place_entry(
                marks,
                n,
                &s[from..to],
                is_folder(p),
                &s[start..end],
                is_folder(e),
            )
        }
    }
}

// What the strict rules say of an entry at a place by itself, as it was decoded there: 5, 6, 18 or 0.
fn entry_number(rules: u16, s: &[u8], at: usize, e: EntryRecord) -> usize
    requires within { Within (length s.now) at e }
    requires e_value { free_of 0 (name_of s.now e) ≡ true }
    ensures { result ≡ entry_no rules s.now at e }
{
    let start = e.name_start;
    let space = start - 1;
    if mode_permitted(rules, &s[at..space]) {
        let end = e.name_end;
        return name_number(&s[start..end]);
    }
    MODE_TEXT
}

// The entry at a place, if it keeps the rules by itself: decoded, then judged.
fn judged_at(rules: u16, s: &[u8], h: usize, at: usize) -> Result<(EntryRecord, Cursor), Verdict>
    ensures { result ≡ seen_at rules h s.now at }
{
    let c = Cursor { at };
    match c.decode(s, h) {
        Ok((e, next)) => {
            let number = entry_number(rules, s, at, e);
            if number != DONE {
                return Err(Verdict {
                    number,
                    place: at,
                    ..FINE
                });
            }
            Ok((e, next))
        }
        Err(v) => Err(v),
    }
}

// Whether NUL and an id stand behind a name, and the name is not reserved.
fn is_kept(s: &[u8], h: usize, start: usize, end: usize) -> bool
    requires { (start ≤ end) × (end ≤ length s.now) }
    ensures { result ≡ true → NameKept h s.now start end }
{
    h < s.len() - end && s[end] == 0 && reserved_number(&s[start..end]) == DONE
}

// The same in one scan of the name where the mode is one of those written and there is nothing to refuse; any other entry is decoded and judged.
fn seen_at(rules: u16, s: &[u8], h: usize, at: usize) -> Result<(EntryRecord, Cursor), Verdict>
    ensures { result ≡ seen_at rules h s.now at }
{
    let code = quick_code(s, at);
    if code == 0 {
        return judged_at(rules, s, h, at);
    }
    let name_start = at + code % 16;
    let name_end = find_nul_or_slash(s, name_start);
    if is_kept(s, h, name_start, name_end) {
        let id_start = name_end + 1;
        let next = id_start + h;
        return Ok((
            EntryRecord {
                mode: code / 16,
                name_start,
                name_end,
                id_start,
                text_start: at,
            },
            Cursor { at: next },
        ));
    }
    judged_at(rules, s, h, at)
}

// Refused: by a number, at a place.
fn stopped(number: usize, place: usize) -> Result<usize, Verdict>
    ensures { result ≡ Err (verdict number place) }
{
    Err(Verdict {
        number,
        place,
        ..FINE
    })
}

// The first pass of the strict reader, with marks enough for the names that can be open at once.
fn count_marked(rules: u16, s: &[u8], h: usize, marks: &mut [u32]) -> Result<usize, Verdict>
    requires { Roomy (length s.now) (length marks.old) }
    ensures { result ≡ tally 0 (strictly (git_rules rules) h s.now) }
{
    let mut at: usize = 0;
    let mut n: usize = 0;
    let mut held: usize = 0;
    let mut last = None;
    while at < s.len() {
        if MOST_RECORDS <= n {
            return stopped(BOUND, 0);
        }
        match seen_at(rules, s, h, at) {
            Ok((e, next)) => {
                match after_entry(s, marks, held, last, e) {
                    Err(why) => match why {
                        Misplaced::NotAfter => {
                            return stopped(ORDER, at);
                        }
                        Misplaced::Double => {
                            return stopped(SAME_NAME, at);
                        }
                    },
                    Ok(k) => {
                        held = k;
                        last = Some(e);
                        at = next.at;
                        n += 1;
                    }
                }
            }
            Err(v) => {
                return Err(v);
            }
        }
    }
    Ok(n)
}

// The first pass with room for N open names.
fn count_with<const N: usize>(rules: u16, s: &[u8], h: usize) -> Result<usize, Verdict>
    requires room { Roomy (length s.now) N }
    requires small { N ≤ 46341 }
    ensures { result ≡ tally 0 (strictly (git_rules rules) h s.now) }
{
    let mut marks = [0u32; N];
    count_marked(rules, s, h, &mut marks)
}

// The same on a stack of its own: only an object of such length takes the stack of its marks.
#[inline(never)]
fn count_apart<const N: usize>(rules: u16, s: &[u8], h: usize) -> Result<usize, Verdict>
    requires room { Roomy (length s.now) N }
    requires small { N ≤ 46341 }
    ensures { result ≡ tally 0 (strictly (git_rules rules) h s.now) }
{
    count_with::<N>(rules, s, h)
}

// The first pass, with no more marks than an object of this length can need: in one of at most 2,079 bytes at most 64 names are open at once,
// of at most 128 KiB 512, of at most 8 MiB 4,096, and of any length within the bound 46,341.
fn count_strict(rules: u16, s: &[u8], h: usize) -> Result<usize, Verdict>
    requires { length s.now ≤ most_bytes }
    ensures { result ≡ tally 0 (strictly (git_rules rules) h s.now) }
{
    match s.len() {
        0..=2079 => count_with::<64>(rules, s, h),
        2080..=131072 => count_with::<512>(rules, s, h),
        131073..=8388608 => count_apart::<4096>(rules, s, h),
        _ => count_apart::<46341>(rules, s, h),
    }
}

// How many entries an object has that keeps the strict rules by a rule set, or its refusal; 2 for an object over its bound.
pub fn strict_count(bytes: &[u8], h: usize, rules: u16) -> Result<usize, Verdict>
    ensures { result ≡ strict_count rules h bytes.now }
{
    if MOST_BYTES < bytes.len() {
        return stopped(BOUND, 0);
    }
    count_strict(rules, bytes, h)
}

// The object's entries as records, where they keep the strict rules by rule set 1 or 2; a refusal changes none of the numbers lent.
pub fn read_tree_strict(bytes: &[u8], h: usize, rules: u16, records: &mut [usize]) -> Answer
    ensures answer { result ≡ strict_answer rules h bytes.now records.old }
    ensures records { records.new ≡ strict_records rules h bytes.now records.old }
{
    let room = records.len() / WIDTH;
    match rule_bounds(rules, h, bytes.len(), room) {
        Err(v) => Answer {
            verdict: v,
            count: 0,
        },
        Ok(()) => finish(bytes, h, count_strict(rules, bytes, h), records),
    }
}
