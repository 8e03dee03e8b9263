// The check in pieces with one byte more of a name, over the byte that the held name has in its place (docs/FORMAT.md, "A check in pieces").
#![tactic(auto)]

ghost use Rattle.std.specs.Prelude.{◌≡◌};
ghost use Rattle.piece_letter.specs.Letter.{line_over, letter_of};

use arriving::{Last, Line, Marks, Phase};
use piece_judge::{meet, sharing};
use piece_marks::placed_at;

// The entry with the byte b more of its name, so many in all, where the held name has x.
fn line_over(l: Line, last: Last, size: usize, x: u8, b: u8) -> Line
    ensures { result ≡ line_over l last size x b }
{
    let stand = meet(l.stand, last, l.size, x, b);
    Line {
        size,
        shared: sharing(stand, size, l.shared),
        stand,
        ..l
    }
}

// The marks with it, so many bytes in all.
pub fn letter(m: Marks, at: usize, l: Line, size: usize, x: u8, b: u8) -> Marks
    ensures { result ≡ letter_of m at l size x b }
{
    let next = line_over(l, m.last, size, x, b);
    placed_at(m, at, m.head, Phase::Name(next))
}
