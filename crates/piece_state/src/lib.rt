// The marks of a check in pieces into flat numbers, which a caller can lend who has no enums (docs/FORMAT.md, "A check in pieces").
#![tactic(auto)]

ghost use Rattle.std.specs.Prelude.{◌≡◌};
ghost use Rattle.piece_state.specs.State.{sort_number, left_number, line_in, marks_numbers};

use arriving::{Line, Marks, Phase, Stand};

// The entry that arrives, before its name has begun.
const NO_LINE: Line = Line {
    written: false,
    folder: false,
    size: 0,
    shared: 0,
    stand: Stand::Level,
};

// A phase's sort, the number that comes with it, and the entry that arrives.
fn phase_numbers(phase: Phase) -> (usize, usize, Line)
    ensures sort { result.0 ≡ sort_number phase }
    ensures left { result.1 ≡ left_number phase }
    ensures line { result.2 ≡ line_in phase }
{
    match phase {
        Phase::Head(k) => (0, k, NO_LINE),
        Phase::Name(l) => (1, 0, l),
        Phase::Id(l, left) => (2, left, l),
    }
}

// The marks into lent numbers; their first bytes are not among these.
pub fn store_marks(m: Marks, marks: &mut [usize; 18])
    ensures { marks.new ≡ marks_numbers m }
{
    let (sort, left, line) = phase_numbers(m.phase);
    *marks = [
        m.verdict.number,
        m.verdict.place,
        m.verdict.part,
        m.h,
        m.rules as usize,
        m.at,
        m.first,
        m.count,
        m.last.size,
        m.last.folder as usize,
        m.ended,
        sort,
        left,
        line.written as usize,
        line.folder as usize,
        line.size,
        line.shared,
        line.stand as usize,
    ];
}
