// A check in pieces begins and ends as C has it (include/sarpukten.h): its state in what the caller lends, eighteen numbers and an entry's first bytes.
#![tactic(auto)]

ghost use Rattle.std.specs.Prelude.{◌≡◌};
ghost use Rattle.arriving.specs.Feed.{start_of};
ghost use Rattle.border.specs.Border.{answer_numbers};
ghost use Rattle.piece_state.specs.State.{marks_numbers};
ghost use Rattle.border_check.specs.End.{end_said};

use border::hand;
use piece_said::marks_said;
use piece_state::store_marks;

// A check begins, by id length and rule set; what the rooms hold does not matter.
pub fn check_start(h: usize, rules: u16, marks: &mut [usize; 18], first: &mut [u8; 8]) -> usize
    ensures value { result ≡ (start_of h rules).verdict.number }
    ensures marks_after { marks.new ≡ marks_numbers (start_of h rules) }
    ensures first_after { first.new ≡ (start_of h rules).head }
{
    let m = piece_ends::start(h, rules);
    let number = m.verdict.number;
    let head = m.head;
    store_marks(m, marks);
    *first = head;
    number
}

// The answer if the object ends here.
pub fn check_end(marks: &[usize; 18], first: &[u8; 8], answer: &mut [usize; 4]) -> usize
    ensures value { result ≡ (end_said marks.now first.now).verdict.number }
    ensures answer_after { answer.new ≡ answer_numbers (end_said marks.now first.now) }
{
    hand(piece_ends::finish(marks_said(marks, *first)), answer)
}
