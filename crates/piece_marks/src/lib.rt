// Marks of the check in pieces that are made anew: a refusal, so many bytes more, and what a byte past the bound settles.
#![tactic(auto)]

ghost use Rattle.std.specs.Prelude.{◌≡◌, ◌&&◌, eqb, leb, take};
ghost use Rattle.ground.specs.Verdict.{most_records};
ghost use Rattle.mode.specs.Read.{read_mode};
ghost use Rattle.arriving.specs.Feed.{fresh, refuse, placed_at, over_in};

use arriving::{Last, Marks, Phase};
use ground::{BOUND, BROKEN_ENTRY, FINE, MOST_RECORDS, NO_MODE, Verdict, shorter};
use mode::EntryMode;

// The marks where nothing has come, or where nothing but a refusal is kept.
pub fn fresh(h: usize, rules: u16, verdict: Verdict) -> Marks
    ensures { result ≡ fresh h rules verdict }
{
    Marks {
        verdict,
        h,
        rules,
        at: 0,
        first: 0,
        count: 0,
        last: Last {
            size: 0,
            folder: false,
        },
        ended: 0,
        head: [0u8; 8],
        phase: Phase::Head(0),
    }
}

// The marks where a refusal is settled.
pub fn refuse(m: Marks, verdict: Verdict) -> Marks
    ensures { result ≡ refuse m verdict }
{
    fresh(m.h, m.rules, verdict)
}

// The marks after so many bytes in all, in a phase.
pub fn placed_at(m: Marks, at: usize, head: [u8; 8], phase: Phase) -> Marks
    ensures { result ≡ placed_at m at head phase }
{
    Marks {
        at,
        head,
        phase,
        ..m
    }
}

// Whether an entry begins that is one too many.
pub fn is_full(k: usize, count: usize) -> bool
    ensures { result ≡ (eqb k 0 && leb most_records count) }
{
    k == 0 && MOST_RECORDS <= count
}

// The mode that so many of the first bytes tell.
fn read_head(head: [u8; 8], k: usize) -> Option<(EntryMode, usize)>
    ensures { result ≡ read_mode (take k head) }
{
    let n = shorter(k, 8);
    EntryMode::extract_at(&head[..n], 0)
}

// What a byte past the bound settles.
fn over_verdict(m: Marks) -> Verdict
    ensures { refuse m result ≡ over_in m m.phase }
{
    let bound = Verdict {
        number: BOUND,
        ..FINE
    };
    match m.phase {
        Phase::Head(0) => bound,
        Phase::Head(k) => match read_head(m.head, k) {
            None => Verdict {
                number: BROKEN_ENTRY,
                place: m.first,
                part: NO_MODE,
            },
            Some(_) => bound,
        },
        Phase::Name(_) | Phase::Id(_, _) => bound,
    }
}

// A byte past the bound.
pub fn over(m: Marks) -> Marks
    ensures { result ≡ over_in m m.phase }
{
    refuse(m, over_verdict(m))
}
