// The check in pieces with one byte more of the first eight of an entry, which decide its mode (docs/FORMAT.md, "A check in pieces").
#![tactic(auto)]

ghost use Rattle.std.specs.Prelude.{◌≡◌, ◌-◌, ◌<◌, ◌≤◌};
ghost use Rattle.mode.specs.Read.{read_mode};
ghost use Rattle.piece_head.specs.Head.{begun_at, begin_at, head_at};

use arriving::{Line, Marks, Phase, Stand, Taken};
use ground::{BOUND, BROKEN_ENTRY, FINE, NO_MODE, Verdict};
use mode::EntryMode;
use piece_marks::{is_full, placed_at, refuse};
use rules::mode_permitted;

// The marks where the name begins, n bytes past the entry's first.
fn begun(m: Marks, at: usize, head: [u8; 8], mode: EntryMode, n: usize) -> Marks
    requires { (0 < n) × (n ≤ 8) }
    ensures { result ≡ begun_at m at head mode.internal n }
{
    let line = Line {
        written: mode_permitted(m.rules, &head[..n - 1]),
        folder: mode.is_tree(),
        size: 0,
        shared: 0,
        stand: Stand::Level,
    };
    placed_at(m, at.saturating_sub(8) + n, head, Phase::Name(line))
}

// The first eight bytes are there.
fn begin(m: Marks, at: usize, head: [u8; 8]) -> Taken
    ensures { result ≡ begin_at m at head (read_mode head) }
{
    match EntryMode::extract_at(&head, 0) {
        None => {
            let verdict = Verdict {
                number: BROKEN_ENTRY,
                place: m.first,
                part: NO_MODE,
            };
            Taken {
                marks: refuse(m, verdict),
                next: 8,
            }
        }
        Some((mode, n)) => Taken {
            marks: begun(m, at, head, mode, n),
            next: n,
        },
    }
}

// One of the first eight bytes, after which the next has its place: the marks, and which of the eight comes next behind the mode (8 for none).
pub fn head_byte(m: Marks, at: usize, k: usize, b: u8) -> Taken
    ensures { result ≡ head_at m at k b }
{
    if is_full(k, m.count) {
        let verdict = Verdict {
            number: BOUND,
            ..FINE
        };
        return Taken {
            marks: refuse(m, verdict),
            next: 8,
        };
    }
    let mut head = m.head;
    if k < 7 {
        head[k] = b;
        return Taken {
            marks: placed_at(m, at, head, Phase::Head(k + 1)),
            next: 8,
        };
    }
    head[7] = b;
    begin(m, at, head)
}
