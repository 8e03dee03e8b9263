// The calls on modes as C has them (include/sarpukten.h): the answer in a lent array, its number returned too.
#![tactic(auto)]

ghost use Rattle.std.specs.Prelude.{◌≡◌};
ghost use Rattle.mode.specs.Mode.{value_of, from_number};
ghost use Rattle.mode.specs.Read.{mode_alone};
ghost use Rattle.border_mode.specs.Border.{mode_numbers};

pub use border_kind::{mode_ask, mode_kind, mode_text, mode_word};
use mode::{EntryMode, ModeAnswer};

// Hands over a mode's answer, and returns its number. Not `border::hand`: the fourth number is another field of another answer.
fn hand_mode(a: ModeAnswer, answer: &mut [usize; 4]) -> usize
    ensures value { result ≡ a.verdict.number }
    ensures answer_after { answer.new ≡ mode_numbers a }
{
    let v = a.verdict;
    *answer = [v.number, v.place, v.part, a.mode.internal as usize];
    v.number
}

// A mode text that stands alone.
pub fn mode_read(text: &[u8], answer: &mut [usize; 4]) -> usize
    ensures value { result ≡ (mode_alone text.now).verdict.number }
    ensures answer_after { answer.new ≡ mode_numbers (mode_alone text.now) }
{
    hand_mode(EntryMode::from_bytes(text), answer)
}

// A mode from a 32-bit number.
pub fn mode_from_number(n: u32, answer: &mut [usize; 4]) -> usize
    ensures value { result ≡ (from_number n).verdict.number }
    ensures answer_after { answer.new ≡ mode_numbers (from_number n) }
{
    hand_mode(EntryMode::from_u32(n), answer)
}

// The number a mode stands for.
pub fn mode_value(mode: u16) -> u16
    ensures { result ≡ value_of mode }
{
    let m = EntryMode { internal: mode };
    m.value()
}
