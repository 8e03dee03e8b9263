// The calls that write trees and loose headers as C has them (include/sarpukten.h): the answer in a lent array, its number returned too.
#![tactic(auto)]

ghost use Rattle.std.specs.Prelude.{◌≡◌};
ghost use Rattle.tree_write.specs.Write.{tree_size};
ghost use Rattle.border.specs.Border.{answer_numbers};
ghost use Rattle.border_tree_write.specs.Border.{tree_answered, tree_output, header_answered, header_output};

use border::hand;

// The size of the tree object that records name.
pub fn tree_size(bytes: &[u8], h: usize, records: &[usize], answer: &mut [usize; 4]) -> usize
    ensures value { result ≡ (tree_size h bytes.now records.now).verdict.number }
    ensures answer_after { answer.new ≡ answer_numbers (tree_size h bytes.now records.now) }
{
    hand(tree_write::tree_size(bytes, h, records), answer)
}

// The tree object that records name, written.
pub fn write_tree(
    bytes: &[u8],
    h: usize,
    records: &[usize],
    out: &mut [u8],
    answer: &mut [usize; 4],
) -> usize
    ensures value { result ≡ (tree_answered h bytes.now records.now out.old).verdict.number }
    ensures answer_after { answer.new ≡ answer_numbers (tree_answered h bytes.now records.now out.old) }
    ensures out_after { out.new ≡ tree_output h bytes.now records.now out.old }
{
    hand(tree_write::write_tree(bytes, h, records, out), answer)
}

// The header of a loose object.
pub fn loose_header(kind: usize, size: u64, out: &mut [u8], answer: &mut [usize; 4]) -> usize
    ensures value { result ≡ (header_answered kind size out.old).verdict.number }
    ensures answer_after { answer.new ≡ answer_numbers (header_answered kind size out.old) }
    ensures out_after { out.new ≡ header_output kind size out.old }
{
    hand(loose_header::loose_header(kind, size, out), answer)
}
