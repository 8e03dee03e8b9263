// Bytes of a piece that need no step of their own: an entry's first seven, those of its name, those of its id but the last
// (docs/FORMAT.md, "A check in pieces").
#![tactic(auto)]

ghost use Rattle.std.specs.Prelude.{◌≡◌, ◌+◌, ◌-◌, ◌≤◌, min, length};
ghost use Rattle.ground.specs.Basics.{part};
ghost use Rattle.ground.specs.Verdict.{most_bytes};
ghost use Rattle.piece_some.specs.Bytes.{taken_at, head_some, head_most, some_in, held_in, some_of, some_held};

use arriving::{Marks, Phase, Taken};
use ground::{DONE, MOST_BYTES};
use output::put;
use piece_marks::{is_full, placed_at};
use piece_name::name_some;

// What is taken of an entry: so many bytes, after which these are its first bytes and this is its phase.
#[derive(Clone, Copy)]
struct Got {
    count: usize,
    head: [u8; 8],
    phase: Phase,
}

// How many of an entry's first bytes: not the eighth, and none where the entry is one too many.
fn head_most(k: usize, count: usize, most: usize) -> usize
    ensures { result ≡ head_most k count most }
{
    if is_full(k, count) {
        return 0;
    }
    7usize.saturating_sub(k).min(most)
}

// Some of an entry's first bytes.
fn head_some(mut head: [u8; 8], k: usize, count: usize, bytes: &[u8]) -> Got
    ensures { result ≡ head_some head k bytes.now (head_most k count (length bytes.now)) }
{
    let n = head_most(k, count, bytes.len());
    put(&mut head, k, &bytes[..n]);
    Got {
        count: n,
        head,
        phase: Phase::Head(k + n),
    }
}

// Some bytes of an entry.
fn some_in(held: &mut [u8; 4096], m: Marks, bytes: &[u8]) -> Got
    ensures taken { result ≡ some_in held.old m bytes.now m.phase }
    ensures held { held.new ≡ held_in held.old bytes.now m.phase }
{
    let head = m.head;
    match m.phase {
        Phase::Head(k) => head_some(head, k, m.count, bytes),
        Phase::Name(l) => {
            let line = name_some(held, m.last, l, bytes);
            Got {
                count: line.size - l.size,
                head,
                phase: Phase::Name(line),
            }
        }
        Phase::Id(l, left) => {
            let n = left.saturating_sub(1).min(bytes.len());
            Got {
                count: n,
                head,
                phase: Phase::Id(l, left - n),
            }
        }
    }
}

// Bytes of an entry from a place on, so many at most.
fn some_at(held: &mut [u8; 4096], m: Marks, piece: &[u8], i: usize, most: usize) -> Taken
    requires { (i + most ≤ length piece.now) × (m.at + most ≤ most_bytes) }
    ensures taken { result ≡ taken_at m i (some_in held.old m (part i (i + most) piece.now) m.phase) }
    ensures held { held.new ≡ held_in held.old (part i (i + most) piece.now) m.phase }
{
    let g = some_in(held, m, &piece[i..i + most]);
    Taken {
        marks: placed_at(m, m.at + g.count, g.head, g.phase),
        next: i + g.count,
    }
}

// Bytes of a piece from a place on: those of an entry, and all after a refusal.
pub fn some(held: &mut [u8; 4096], m: Marks, piece: &[u8], i: usize) -> Taken
    ensures taken { result ≡ some_of held.old m piece.now i }
    ensures held { held.new ≡ some_held held.old m piece.now i }
{
    if m.verdict.number != DONE {
        return Taken {
            marks: m,
            next: piece.len(),
        };
    }
    let most = piece
        .len()
        .saturating_sub(i)
        .min(MOST_BYTES.saturating_sub(m.at));
    if most == 0 {
        return Taken { marks: m, next: i };
    }
    some_at(held, m, piece, i, most)
}
