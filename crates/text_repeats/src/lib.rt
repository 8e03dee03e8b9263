// Records of a text by the names past their tabs, and of a list of them in order the first that repeats an earlier one (docs/FORMAT.md, "Text").
#![tactic(auto)]

ghost use Rattle.std.specs.Prelude.{◌≡◌, ◌/◌, ◌≤◌, length, drop};
ghost use Rattle.keys.specs.Key.{past_mark, name_at};
ghost use Rattle.text_repeats.specs.Least.{same_record, least_of, least_next, told};

use ground::{FINE, ORDER, SAME_NAME, Verdict, shorter};
use scan::{find_byte, find_nul, same_bytes};

// No element: an element is below it.
pub const NONE: usize = 4294967296;

// Where the name of an element begins.
fn name_start(text: &[u8], x: u32) -> usize
    ensures { (result ≤ length text.now) × (drop result text.now ≡ past_mark 9 (drop (x / 2) text.now)) }
{
    let place = x as usize / 2;
    if text.len() <= place {
        return text.len();
    }
    let tab = find_byte(text, place, b'\t');
    if tab < text.len() {
        return tab + 1;
    }
    text.len()
}

// The name of an element: all past the first tab from its place on, up to the next NUL.
fn name_at(text: &[u8], x: u32) -> &[u8]
    ensures { result.now ≡ name_at text.now 9 0 x }
{
    let from = name_start(text, x);
    let end = find_nul(text, from);
    &text[from..end]
}

// Whether two elements have one name and one sort.
pub fn same_record(text: &[u8], x: u32, y: u32) -> bool
    ensures { result ≡ same_record text.now x y }
{
    x % 2 == y % 2 && same_bytes(name_at(text, x), name_at(text, y))
}

// The smaller of a number and the second of two elements, where they have one name and sort; else the number.
fn repeat_here(text: &[u8], x: u32, y: u32, least: usize) -> usize
    ensures { result ≡ least_of (same_record text.now) x y least }
{
    if same_record(text, x, y) {
        return shorter(least, y as usize);
    }
    least
}

// The least element that has the name and sort of the one before it in a list, or NONE.
pub fn least_repeat(text: &[u8], list: &[u32]) -> usize
    ensures { result ≡ least_next (same_record text.now) list.now 4294967296 }
{
    let mut least = NONE;
    for i in 1..list.len() {
        least = repeat_here(text, list[i - 1], list[i], least);
    }
    least
}

// The verdict by the least element that repeats a name and a sort, and the least that repeats a name: 7, then 17.
pub fn repeat_verdict(order: usize, name: usize) -> Verdict
    ensures { result ≡ told order name }
{
    if order < NONE {
        return Verdict {
            number: ORDER,
            place: order / 2,
            ..FINE
        };
    }
    if name < NONE {
        return Verdict {
            number: SAME_NAME,
            place: name / 2,
            ..FINE
        };
    }
    FINE
}
