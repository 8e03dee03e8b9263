// Where whole entries of a piece may be taken at once, and the marks after them (docs/FORMAT.md, "A check in pieces").
#![tactic(auto)]

ghost use Rattle.std.specs.Prelude.{◌≡◌};
ghost use Rattle.piece_between.specs.Between.{is_next, is_fine, is_after, is_first, is_between, head_after, ran_of};

use arriving::{Last, MOST_HELD, Marks, Phase, Taken};
use ground::{FINE, MOST_BYTES, SAME_NAME, Verdict};
use piece_marks::refuse;
use piece_run::Run;

// Whether nothing is refused.
fn is_fine(v: Verdict) -> bool
    ensures { result ≡ is_fine v }
{
    v.number == 0 && v.place == 0 && v.part == 0
}

// Whether there is an entry before.
fn is_after(last: Last) -> bool
    ensures { result ≡ is_after last }
{
    last.size != 0 && last.size <= MOST_HELD
}

// Whether an entry begins at a place, and so many bytes more keep the bound.
fn is_first(at: usize, first: usize, left: usize) -> bool
    ensures { result ≡ is_first at first left }
{
    first == at && at <= MOST_BYTES && left <= MOST_BYTES - at
}

// Whether none of an entry's first bytes has come.
fn is_next(phase: Phase) -> bool
    ensures { result ≡ is_next phase }
{
    matches!(phase, Phase::Head(0))
}

// Whether an entry begins that may be taken at once, where so many bytes are left in the piece.
pub fn is_between(m: Marks, left: usize) -> bool
    ensures { result ≡ is_between m left }
{
    is_next(m.phase)
        && is_fine(m.verdict)
        && is_after(m.last)
        && is_first(m.at, m.first, left)
        && 8 < m.h
}

// The entry's first bytes from which some entries were taken.
fn head_after(head: [u8; 8], i: usize, next: usize) -> [u8; 8]
    ensures { result ≡ head_after head i next }
{
    if next == i { head } else { [0u8; 8] }
}

// The marks after some entries, so many bytes in all, and the place of the next byte.
pub fn ran(m: Marks, at: usize, all: usize, i: usize, t: Run) -> Taken
    ensures { result ≡ ran_of m at all i t }
{
    if t.double {
        let marks = refuse(
            m,
            Verdict {
                number: SAME_NAME,
                place: at,
                ..FINE
            },
        );
        return Taken { marks, next: all };
    }
    let marks = Marks {
        verdict: FINE,
        at,
        first: at,
        count: t.count,
        last: t.last,
        ended: t.ended,
        head: head_after(m.head, i, t.next),
        phase: Phase::Head(0),
        ..m
    };
    Taken {
        marks,
        next: t.next,
    }
}
