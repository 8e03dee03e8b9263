// The check in pieces with one byte more of an entry's first eight: the bytes behind the mode are fed too (docs/FORMAT.md, "A check in pieces").
#![tactic(auto)]

ghost use Rattle.std.specs.Prelude.{◌≡◌, ◌<◌, drop};
ghost use Rattle.arriving.specs.Feed.{together, bodies};
ghost use Rattle.piece_first.specs.Within.{first_within};

use arriving::Marks;
use ground::MOST_BYTES;
use piece_body::body_within;
use piece_head::head_byte;

// The bytes of the first eight that stand behind the mode.
fn bodies(held: &mut [u8; 4096], ends: &mut [u32; 4097], m: Marks, head: [u8; 8], n: usize) -> Marks
    requires { m.at < 2147483648 }
    ensures { together held.new ends.new result ≡ bodies (together held.old ends.old m) (drop n head) }
{
    let mut out = m;
    // By index: n may be past the eighth byte, where no part of the array begins.
    for k in n..8 {
        out = body_within(held, ends, out, head[k]);
    }
    out
}

// One of the first eight bytes, where the place can be counted on; elsewhere nothing changes.
pub fn first_byte(held: &mut [u8; 4096], ends: &mut [u32; 4097], m: Marks, k: usize, b: u8) -> Marks
    ensures { together held.new ends.new result ≡ first_within (together held.old ends.old m) k b }
{
    if MOST_BYTES <= m.at {
        return m;
    }
    let t = head_byte(m, m.at + 1, k, b);
    bodies(held, ends, t.marks, t.marks.head, t.next)
}
