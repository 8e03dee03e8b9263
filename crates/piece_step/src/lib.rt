// The check in pieces with one byte more (docs/FORMAT.md, "A check in pieces").
#![tactic(auto)]

ghost use Rattle.std.specs.Prelude.{◌≡◌};
ghost use Rattle.arriving.specs.Feed.{together, byte_step};

use arriving::{Marks, Phase};
use ground::{DONE, MOST_BYTES};
use piece_body::body_within;
use piece_first::first_byte;
use piece_marks::over;

// A byte: after a refusal nothing changes.
pub fn step(held: &mut [u8; 4096], ends: &mut [u32; 4097], m: Marks, b: u8) -> Marks
    ensures { together held.new ends.new result ≡ byte_step (together held.old ends.old m) b }
{
    if m.verdict.number != DONE {
        return m;
    }
    if MOST_BYTES <= m.at {
        return over(m);
    }
    match m.phase {
        Phase::Head(k) => first_byte(held, ends, m, k, b),
        Phase::Name(_) | Phase::Id(_, _) => body_within(held, ends, m, b),
    }
}
