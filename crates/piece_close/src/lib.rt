// An entry that is finished in the check in pieces: refused, or placed among the open names (docs/FORMAT.md, "A check in pieces").
#![tactic(auto)]

ghost use Rattle.std.specs.Prelude.{◌≡◌, ◌+◌, ltb};
ghost use Rattle.ground.specs.Basics.{pick};
ghost use Rattle.ground.specs.Verdict.{most_records, verdict};
ghost use Rattle.arriving.specs.Feed.{refuse, judged, leaves_none, closed_ends};
ghost use Rattle.piece_close.specs.Closing.{next_at, placed_by, closed_at};

use arriving::{Last, Line, Marks, Phase};
use doubles::{Misplaced, open_entry};
use ground::{DONE, FINE, MOST_RECORDS, ORDER, SAME_NAME, Verdict};
use piece_judge::judge;
use piece_marks::refuse;

// The entry that arrives is refused.
pub fn refused(m: Marks, number: usize) -> Marks
    ensures { result ≡ refuse m (verdict number m.first) }
{
    refuse(
        m,
        Verdict {
            number,
            place: m.first,
            ..FINE
        },
    )
}

// One entry more is counted, up to the most.
fn one_more(count: usize) -> usize
    ensures { result ≡ pick (ltb count most_records) (count + 1) count }
{
    if count < MOST_RECORDS {
        count + 1
    } else {
        count
    }
}

// The marks where the next entry begins at a place, with so many names open.
fn next_entry(m: Marks, at: usize, l: Line, ended: usize) -> Marks
    ensures { result ≡ next_at m at l ended }
{
    Marks {
        at,
        first: at,
        count: one_more(m.count),
        last: Last {
            size: l.size,
            folder: l.folder,
        },
        ended,
        head: [0u8; 8],
        phase: Phase::Head(0),
        ..m
    }
}

// Whether the entry before leaves no name open.
fn leaves_none(last: Last) -> bool
    ensures { result ≡ leaves_none last }
{
    last.folder || last.size == 0
}

// The marks after an entry that stands so among the names that are open.
fn placed(m: Marks, at: usize, l: Line, p: Result<usize, Misplaced>) -> Marks
    ensures { result ≡ placed_by m at l p }
{
    match p {
        Ok(n) => next_entry(m, at, l, n),
        Err(why) => match why {
            Misplaced::Double => refused(m, SAME_NAME),
            Misplaced::NotAfter => refused(m, ORDER),
        },
    }
}

// An entry is finished, and the next byte has a place: what the rules say of it, or it is placed among the open names.
pub fn close_entry(held: &[u8; 4096], ends: &mut [u32; 4097], m: Marks, at: usize, l: Line) -> Marks
    ensures marks { result ≡ closed_at ends.old m at l (judged held.now m.last l) }
    ensures ends { ends.new ≡ closed_ends ends.old m l (judged held.now m.last l) }
{
    let number = judge(held, m.last, l);
    if number != DONE {
        return refused(m, number);
    }
    let none = leaves_none(m.last);
    let p = open_entry(ends, m.ended, l.shared, m.last.size, none, l.size, l.folder);
    placed(m, at, l, p)
}
