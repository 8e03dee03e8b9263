// Whole entries of a piece, one after the other (docs/FORMAT.md, "A check in pieces").
#![tactic(auto)]

ghost use Rattle.std.specs.Prelude.{◌≡◌, ◌≤◌, ◌<◌};
ghost use Rattle.ground.specs.Verdict.{most_records};
ghost use Rattle.arriving.specs.Feed.{most_held};
ghost use Rattle.piece_run.specs.Runs.{going, one_more, all_of};

use arriving::{Last, MOST_HELD};
use doubles::Misplaced;
use ground::MOST_RECORDS;
use piece_place::place;
use piece_seen::seen_at;

// Whole entries of a piece, one after the other: the place behind them, how many entries are finished, the last of them, how many names are
// open, and whether the name of the entry at the place was there before: a flag, since a run that ends there keeps all the rest.
#[derive(Clone, Copy)]
pub struct Run {
    pub next: usize,
    pub count: usize,
    pub last: Last,
    pub ended: usize,
    pub double: bool,
}

// One whole entry more, if there is one.
fn one_entry(held: &mut [u8; 4096], ends: &mut [u32; 4097], r: Run, piece: &[u8], h: usize) -> Run
    requires { (r.last.size ≤ most_held) × (r.count < most_records) }
    ensures run { result ≡ (one_more piece.now h (going r held.old ends.old)).run }
    ensures held { held.new ≡ (one_more piece.now h (going r held.old ends.old)).held }
    ensures ends { ends.new ≡ (one_more piece.now h (going r held.old ends.old)).ends }
{
    let Some(e) = seen_at(piece, r.next, h) else {
        return r;
    };
    match place(
        held,
        ends,
        r.last,
        r.ended,
        &piece[e.start..e.end],
        e.folder,
    ) {
        Ok(k) => Run {
            next: e.end + 1 + h,
            count: r.count + 1,
            last: Last {
                size: e.end - e.start,
                folder: e.folder,
            },
            ended: k,
            double: false,
        },
        Err(Misplaced::NotAfter) => r,
        Err(Misplaced::Double) => Run { double: true, ..r },
    }
}

// The whole entries of a piece from a place on, as far as nothing is said of them.
pub fn all_entries(
    held: &mut [u8; 4096],
    ends: &mut [u32; 4097],
    from: Run,
    piece: &[u8],
    h: usize,
) -> Run
    ensures run { result ≡ (all_of piece.now h (going from held.old ends.old)).run }
    ensures held { held.new ≡ (all_of piece.now h (going from held.old ends.old)).held }
    ensures ends { ends.new ≡ (all_of piece.now h (going from held.old ends.old)).ends }
{
    let mut r = from;
    if MOST_HELD < r.last.size {
        return r;
    }
    // The run's own count is what each turn adds one to, so no `for` counts beside it.
    while r.count < MOST_RECORDS {
        let t = one_entry(held, ends, r, piece, h);
        if t.next == r.next {
            return t;
        }
        r = t;
    }
    r
}
