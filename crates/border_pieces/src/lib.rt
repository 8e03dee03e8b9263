// A piece more of a check as C has it (include/sarpukten.h): its state in what the caller lends, eighteen numbers, an entry's first bytes and the two
// rooms.
#![tactic(auto)]

ghost use Rattle.std.specs.Prelude.{◌≡◌};
ghost use Rattle.border_pieces.specs.Border.{fed_of, fed_numbers};

use ground::DONE;
use piece_said::marks_said;
use piece_state::store_marks;

// A piece more.
pub fn check_piece(
    held: &mut [u8; 4096],
    ends: &mut [u32; 4097],
    marks: &mut [usize; 18],
    first: &mut [u8; 8],
    piece: &[u8],
) -> usize
    ensures value { result
        ≡ (fed_of held.old ends.old marks.old first.old piece.now).marks.verdict.number }
    ensures held_after { held.new ≡ (fed_of held.old ends.old marks.old first.old piece.now).held }
    ensures ends_after { ends.new ≡ (fed_of held.old ends.old marks.old first.old piece.now).ends }
    ensures marks_after { marks.new ≡ fed_numbers held.old ends.old marks.old first.old piece.now }
    ensures first_after { first.new
        ≡ (fed_of held.old ends.old marks.old first.old piece.now).marks.head }
{
    let settled = marks[0];
    if settled != DONE {
        return settled;
    }
    let before = marks_said(marks, *first);
    let m = pieces::feed(held, ends, before, piece);
    let number = m.verdict.number;
    let head = m.head;
    store_marks(m, marks);
    *first = head;
    number
}
