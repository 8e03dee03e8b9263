// How an answer is handed over to C: its numbers into an array that the caller lends (specs/Border.antt).
#![tactic(auto)]

ghost use Rattle.std.specs.Prelude.{◌≡◌};
ghost use Rattle.border.specs.Border.{answer_numbers};

use ground::Answer;

// Hands over an answer, and returns its number.
pub fn hand(a: Answer, answer: &mut [usize; 4]) -> usize
    ensures value { result ≡ a.verdict.number }
    ensures answer_after { answer.new ≡ answer_numbers a }
{
    let number = a.verdict.number;
    let place = a.verdict.place;
    let part = a.verdict.part;
    let count = a.count;
    *answer = [number, place, part, count];
    number
}
