// How a strict check of a tree object in pieces begins and how it ends (docs/FORMAT.md, "A check in pieces").
#![tactic(auto)]

ghost use Rattle.std.specs.Prelude.{◌≡◌, take};
ghost use Rattle.mode.specs.Read.{read_mode};
ghost use Rattle.arriving.specs.Feed.{start_of, head_part, finish_of};

use arriving::{Marks, Phase};
use ground::{Answer, BROKEN_ENTRY, CUT_ID, DONE, FINE, NO_MODE, NO_NUL, Verdict, shorter};
use mode::EntryMode;
use piece_marks::fresh;
use rules::rule_bounds;
use scan::find_nul;

// The check of an object of which nothing has come, by id length and rule set: 1 and 19 are settled.
pub fn start(h: usize, rules: u16) -> Marks
    ensures { result ≡ start_of h rules }
{
    match rule_bounds(rules, h, 0, 0) {
        Ok(()) => fresh(h, rules, FINE),
        Err(v) => fresh(h, rules, v),
    }
}

// The part that is missing where so many first bytes of an entry have come.
fn head_part(head: [u8; 8], k: usize) -> usize
    ensures { result ≡ head_part (take k head) (read_mode (take k head)) }
{
    let n = shorter(k, 8);
    match EntryMode::extract_at(&head[..n], 0) {
        None => NO_MODE,
        Some((_, at)) => {
            let end = find_nul(&head[..n], at);
            if n <= end { NO_NUL } else { CUT_ID }
        }
    }
}

// The answer of an object that ends in an entry which begins at a place.
fn cut(first: usize, part: usize) -> Answer
    ensures { result ≡ record { verdict = record { number = 3; place = first; part = part }; count = 0 } }
{
    Answer {
        verdict: Verdict {
            number: BROKEN_ENTRY,
            place: first,
            part,
        },
        count: 0,
    }
}

// The answer where the object ends: number, place, part and count.
pub fn finish(m: Marks) -> Answer
    ensures { result ≡ finish_of m }
{
    if m.verdict.number != DONE {
        return Answer {
            verdict: m.verdict,
            count: 0,
        };
    }
    match m.phase {
        Phase::Head(0) => Answer {
            verdict: FINE,
            count: m.count,
        },
        Phase::Head(k) => cut(m.first, head_part(m.head, k)),
        Phase::Name(_) => cut(m.first, NO_NUL),
        Phase::Id(_, _) => cut(m.first, CUT_ID),
    }
}
