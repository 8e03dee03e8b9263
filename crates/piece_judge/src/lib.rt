// A name that arrives byte by byte over the one before it, and what the rules say of a finished entry (docs/FORMAT.md, "A check in pieces").
#![tactic(auto)]

ghost use Rattle.std.specs.Prelude.{◌≡◌};
ghost use Rattle.arriving.specs.Feed.{meet, sharing, is_over, judged};

use arriving::{Last, Line, Stand};
use ground::{DONE, MODE_TEXT, ORDER, shorter};
use rules::name_number;

// How a name that was level stands after the byte b, where the held name has x, or has ended.
fn by_byte(last: Last, size: usize, x: u8, b: u8) -> Stand
    ensures { result ≡ meet Stand.Level last size x b }
{
    if size < last.size {
        if x == b {
            Stand::Level
        } else if x < b {
            Stand::Over
        } else {
            Stand::NotOver
        }
    } else if last.folder && b <= b'/' {
        Stand::NotOver
    } else {
        Stand::Over
    }
}

// How any name stands after it: the first difference has decided.
pub fn meet(stand: Stand, last: Last, size: usize, x: u8, b: u8) -> Stand
    ensures { result ≡ meet stand last size x b }
{
    match stand {
        Stand::Level => by_byte(last, size, x, b),
        Stand::Over => Stand::Over,
        Stand::NotOver => Stand::NotOver,
    }
}

// How many bytes the two names share, where so many have come.
pub fn sharing(stand: Stand, size: usize, shared: usize) -> usize
    ensures { result ≡ sharing stand size shared }
{
    match stand {
        Stand::Level => size,
        Stand::Over | Stand::NotOver => shared,
    }
}

// Whether a finished name that is level stands above the one before.
fn level_over(held: &[u8], last: Last, l: Line) -> bool
    ensures { result ≡ is_over held.now last l Stand.Level }
{
    if l.size < last.size {
        l.folder && ground::byte_at(held, l.size) < b'/'
    } else {
        l.folder && !last.folder
    }
}

// Whether any finished name stands above the one before.
fn is_over(held: &[u8], last: Last, l: Line) -> bool
    ensures { result ≡ is_over held.now last l l.stand }
{
    match l.stand {
        Stand::Level => level_over(held, last, l),
        Stand::Over => true,
        Stand::NotOver => false,
    }
}

// What the rules say of a finished entry by itself and after the one before: 5, 6, 18, 7 or 0, numbers of the one table that `name_number`
// and C answer with (docs/FORMAT.md, "Numbers").
pub fn judge(held: &[u8], last: Last, l: Line) -> usize
    ensures { result ≡ judged held.now last l }
{
    if !l.written {
        return MODE_TEXT;
    }
    let size = shorter(l.size, held.len());
    let number = name_number(&held[..size]);
    if number != DONE {
        return number;
    }
    if is_over(held, last, l) { DONE } else { ORDER }
}
