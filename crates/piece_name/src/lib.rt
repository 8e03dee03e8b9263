// A name that arrives several bytes at a time over the one before it, which is held (docs/FORMAT.md, "A check in pieces").
#![tactic(auto)]

ghost use Rattle.std.specs.Prelude.{◌≡◌, min};
ghost use Rattle.std.proofs.lemmas.List.Edits.{sets};
ghost use Rattle.ground.specs.Scan.{count_to};
ghost use Rattle.piece_name.specs.Names.{differs_of, level_of, stand_of, name_more, name_some};

use arriving::{Last, Line, MOST_HELD, Stand};
use ground::shorter;
use output::put;
use piece_judge::meet;
use scan::{common_start, find_nul};

// How a name stands after some bytes, and how many it shares with the held one.
#[derive(Clone, Copy)]
pub struct Stood {
    pub stand: Stand,
    pub shared: usize,
}

// A name that is level up to a place, where so many of some bytes have come: the next of them decides.
fn differs(held: &[u8], last: Last, at: usize, shared: usize, some: &[u8], n: usize) -> Stood
    ensures { result ≡ differs_of held.now last at shared some.now n }
{
    let stand = match some.get(n) {
        Some(b) => meet(Stand::Level, last, at, ground::byte_at(held, at), *b),
        None => Stand::Level,
    };
    Stood { stand, shared }
}

// How a name that is level stands after some bytes.
fn stand_level(held: &[u8], last: Last, size: usize, shared: usize, some: &[u8]) -> Stood
    ensures { result ≡ level_of held.now last size shared some.now }
{
    let to = shorter(last.size, held.len());
    if to <= size {
        return differs(held, last, size, shared, some, 0);
    }
    let n = common_start(&held[size..to], some);
    let shared = if n == 0 { shared } else { size + n };
    differs(held, last, size + n, shared, some, n)
}

// How any name stands after some bytes: the first difference decides.
fn stand_after(held: &[u8], last: Last, l: Line, some: &[u8]) -> Stood
    ensures { result ≡ stand_of held.now last l.stand l.size l.shared some.now }
{
    match l.stand {
        Stand::Level => stand_level(held, last, l.size, l.shared, some),
        Stand::Over | Stand::NotOver => Stood {
            stand: l.stand,
            shared: l.shared,
        },
    }
}

// How many of some bytes stand before a NUL, or as many as there is room for.
fn name_bytes(room: usize, bytes: &[u8]) -> usize
    ensures { result ≡ min room (count_to 0 bytes.now) }
{
    let n = shorter(room, bytes.len());
    find_nul(&bytes[..n], 0)
}

// The bytes of a name up to its NUL, or as many as can be held: the entry's line after them.
pub fn name_some(held: &mut [u8; 4096], last: Last, l: Line, bytes: &[u8]) -> Line
    ensures line { result ≡ name_some held.old last l bytes.now }
    ensures held { held.new ≡ sets held.old l.size (name_more l bytes.now) }
{
    let size = l.size;
    if MOST_HELD <= size {
        return l;
    }
    let k = name_bytes(MOST_HELD - size, bytes);
    let some = &bytes[..k];
    let s = stand_after(held, last, l, some);
    put(held, size, some);
    Line {
        size: size + k,
        shared: s.shared,
        stand: s.stand,
        ..l
    }
}
