// The check in pieces with one byte more of an entry's name or id (docs/FORMAT.md, "A check in pieces").
#![tactic(auto)]

ghost use Rattle.std.specs.Prelude.{◌≡◌, ◌<◌};
ghost use Rattle.arriving.specs.Feed.{together, moved, name_marks, name_held, id_marks, id_ends};
ghost use Rattle.piece_body.specs.Within.{body_within};

use arriving::{Line, MOST_HELD, Marks, Phase};
use ground::LONG_NAME;
use piece_close::{close_entry, refused};
use piece_letter::letter;
use piece_marks::placed_at;

// So many bytes of the id are to come.
fn in_id(m: Marks, l: Line, left: usize) -> Marks
    requires { m.at < 4294967296 }
    ensures { result ≡ moved m m.head (Phase.Id l left) }
{
    placed_at(m, m.at + 1, m.head, Phase::Id(l, left))
}

// A byte of the name.
fn name_byte(held: &mut [u8; 4096], m: Marks, l: Line, b: u8) -> Marks
    requires { m.at < 4294967296 }
    ensures marks { result ≡ name_marks held.old m l b }
    ensures held { held.new ≡ name_held held.old l b }
{
    if b == 0 {
        return in_id(m, l, m.h);
    }
    let size = l.size;
    if MOST_HELD <= size {
        return refused(m, LONG_NAME);
    }
    let x = held[size];
    held[size] = b;
    letter(m, m.at + 1, l, size + 1, x, b)
}

// A byte of the id.
fn id_byte(held: &[u8; 4096], ends: &mut [u32; 4097], m: Marks, l: Line, left: usize) -> Marks
    requires { m.at < 4294967296 }
    ensures marks { result ≡ id_marks held.now ends.old m l left }
    ensures ends { ends.new ≡ id_ends held.now ends.old m l left }
{
    if 1 < left {
        return in_id(m, l, left - 1);
    }
    close_entry(held, ends, m, m.at + 1, l)
}

// A byte past the mode, where the place can be counted on; elsewhere nothing changes.
pub fn body_within(held: &mut [u8; 4096], ends: &mut [u32; 4097], m: Marks, b: u8) -> Marks
    ensures { together held.new ends.new result ≡ body_within (together held.old ends.old m) b }
{
    if 4294967296 <= m.at {
        return m;
    }
    match m.phase {
        Phase::Head(_) => m,
        Phase::Name(l) => name_byte(held, m, l, b),
        Phase::Id(l, left) => id_byte(held, ends, m, l, left),
    }
}
