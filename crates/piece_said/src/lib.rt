// The marks of a check in pieces that flat numbers say (docs/FORMAT.md, "A check in pieces"). Any numbers are marks.
#![tactic(auto)]

ghost use Rattle.std.specs.Prelude.{◌≡◌};
ghost use Rattle.piece_state.specs.State.{set_said, stand_said, line_said, phase_said, marks_said};

use arriving::{Last, Line, Marks, Phase, Stand};
use ground::Verdict;

// The rule set, by its number.
fn set_said(n: usize) -> u16
    ensures { result ≡ set_said n }
{
    u16::try_from(n).unwrap_or(0)
}

// How the name stands, by its number.
fn stand_said(n: usize) -> Stand
    ensures { result ≡ stand_said n }
{
    match n {
        0 => Stand::Level,
        1 => Stand::Over,
        _ => Stand::NotOver,
    }
}

// The entry that arrives, by the last five numbers.
fn line_said(marks: &[usize; 18]) -> Line
    ensures { result ≡ line_said marks.now }
{
    Line {
        written: marks[13] != 0,
        folder: marks[14] != 0,
        size: marks[15],
        shared: marks[16],
        stand: stand_said(marks[17]),
    }
}

// The phase, by its sort.
fn phase_said(sort: usize, left: usize, line: Line) -> Phase
    ensures { result ≡ phase_said sort left line }
{
    match sort {
        0 => Phase::Head(left),
        1 => Phase::Name(line),
        _ => Phase::Id(line, left),
    }
}

// The marks that eighteen lent numbers and an entry's first bytes say.
pub fn marks_said(marks: &[usize; 18], first: [u8; 8]) -> Marks
    ensures { result ≡ marks_said marks.now first }
{
    Marks {
        verdict: Verdict {
            number: marks[0],
            place: marks[1],
            part: marks[2],
        },
        h: marks[3],
        rules: set_said(marks[4]),
        at: marks[5],
        first: marks[6],
        count: marks[7],
        last: Last {
            size: marks[8],
            folder: marks[9] != 0,
        },
        ended: marks[10],
        head: first,
        phase: phase_said(marks[11], marks[12], line_said(marks)),
    }
}
