// A strict check of a tree object that arrives in pieces (docs/FORMAT.md, "A check in pieces"): the marks by value, and two lent rooms, one for a
// name and one for the lengths of the names that are open.
#![tactic(auto)]

ghost use Rattle.std.specs.Prelude.{◌≡◌, ◌≤◌, length};
ghost use Rattle.arriving.specs.Feed.{most_held, together, feed_of};
ghost use Rattle.arriving.specs.Bulk.{Took};

use arriving::{Marks, Taken};
use piece_between::{is_between, ran};
use piece_run::{Run, all_entries};
use piece_some::some;
use piece_step::step;

// The whole entries of a piece from a place on, if one begins there. Lent as a slice, the room says how long it is.
fn whole(held: &mut [u8; 4096], ends: &mut [u32; 4097], m: Marks, piece: &[u8], i: usize) -> Taken
    requires { i ≤ length piece.now }
    ensures took { Took held.old ends.old m piece.now i held.new ends.new result }
    ensures room { length held.new ≡ most_held }
{
    let lent: &[u8] = held;
    if is_between(m, piece.len() - i) {
        let from = Run {
            next: i,
            count: m.count,
            last: m.last,
            ended: m.ended,
            double: false,
        };
        let r = all_entries(held, ends, from, piece, m.h);
        return ran(m, m.at + (r.next - i), piece.len(), i, r);
    }
    Taken { marks: m, next: i }
}

// The check with a piece more.
pub fn feed(held: &mut [u8; 4096], ends: &mut [u32; 4097], marks: Marks, piece: &[u8]) -> Marks
    ensures { together held.new ends.new result ≡ feed_of (together held.old ends.old marks) piece.now }
{
    let mut t = Taken { marks, next: 0 };
    loop {
        t = whole(held, ends, t.marks, piece, t.next);
        t = some(held, t.marks, piece, t.next);
        let Some(b) = piece.get(t.next) else {
            return t.marks;
        };
        t.marks = step(held, ends, t.marks, *b);
        t.next += 1;
    }
}
