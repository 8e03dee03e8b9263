// Ids from hex digits and back as C has them (include/sarpukten.h): the answer in a lent array, its number returned too.
#![tactic(auto)]

ghost use Rattle.std.specs.Prelude.{◌≡◌};
ghost use Rattle.border.specs.Border.{answer_numbers};
ghost use Rattle.border_hex.specs.Border.{id_answered, id_output, hex_answered, hex_output};

use border::hand;

// The id that hex digits say.
pub fn id_of_hex(digits: &[u8], out: &mut [u8], answer: &mut [usize; 4]) -> usize
    ensures value { result ≡ (id_answered digits.now out.old).verdict.number }
    ensures answer_after { answer.new ≡ answer_numbers (id_answered digits.now out.old) }
    ensures out_after { out.new ≡ id_output digits.now out.old }
{
    hand(id_of_hex::id_of_hex(digits, out), answer)
}

// The hex digits of an id.
pub fn hex_of_id(id: &[u8], out: &mut [u8], answer: &mut [usize; 4]) -> usize
    ensures value { result ≡ (hex_answered id.now out.old).verdict.number }
    ensures answer_after { answer.new ≡ answer_numbers (hex_answered id.now out.old) }
    ensures out_after { out.new ≡ hex_output id.now out.old }
{
    hand(hex_of_id::hex_of_id(id, out), answer)
}
