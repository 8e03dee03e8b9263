// Trees as text and back as C has them (include/sarpukten.h): the answer in a lent array, its number returned too.
#![tactic(auto)]

ghost use Rattle.std.specs.Prelude.{◌≡◌};
ghost use Rattle.border.specs.Border.{answer_numbers};
ghost use Rattle.border_text.specs.Border.{export_answered, export_output, import_answered, import_output};

use border::hand;

// The text of a strict object's entries.
pub fn export_tree(
    bytes: &[u8],
    h: usize,
    rules: u16,
    out: &mut [u8],
    answer: &mut [usize; 4],
) -> usize
    ensures value { result ≡ (export_answered rules h bytes.now out.old).verdict.number }
    ensures answer_after { answer.new ≡ answer_numbers (export_answered rules h bytes.now out.old) }
    ensures out_after { out.new ≡ export_output rules h bytes.now out.old }
{
    hand(tree_export::export_tree(bytes, h, rules, out), answer)
}

// The strict object of a text's records.
pub fn import_tree(
    text: &[u8],
    h: usize,
    rules: u16,
    out: &mut [u8],
    answer: &mut [usize; 4],
) -> usize
    ensures value { result ≡ (import_answered rules h text.now out.old).verdict.number }
    ensures answer_after { answer.new ≡ answer_numbers (import_answered rules h text.now out.old) }
    ensures out_after { out.new ≡ import_output rules h text.now out.old }
{
    hand(tree_import::import_tree(text, h, rules, out), answer)
}
