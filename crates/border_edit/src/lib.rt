// The edits of a tree object as C has them (include/sarpukten.h): the answer in a lent array, its number returned too.
#![tactic(auto)]

ghost use Rattle.std.specs.Prelude.{◌≡◌};
ghost use Rattle.edit_walk.specs.Walk.{new_entry};
ghost use Rattle.edit.specs.Edit.{put_output, remove_output};
ghost use Rattle.border.specs.Border.{answer_numbers};
ghost use Rattle.border_edit.specs.Border.{put_answered, remove_answered};

use border::hand;

// A name put with its mode and id.
pub fn put_in_tree(
    bytes: &[u8],
    h: usize,
    rules: u16,
    mode: usize,
    name: &[u8],
    id: &[u8],
    out: &mut [u8],
    answer: &mut [usize; 4],
) -> usize
    ensures value { result ≡ (put_answered rules h bytes.now (new_entry mode name.now id.now) out.old).verdict.number }
    ensures answer_after { answer.new ≡ answer_numbers (put_answered rules h bytes.now (new_entry mode name.now id.now) out.old) }
    ensures out_after { out.new ≡ put_output rules h bytes.now (new_entry mode name.now id.now) out.old }
{
    hand(
        edit::put_in_tree(bytes, h, rules, mode, name, id, out),
        answer,
    )
}

// A name removed.
pub fn remove_from_tree(
    bytes: &[u8],
    h: usize,
    rules: u16,
    name: &[u8],
    out: &mut [u8],
    answer: &mut [usize; 4],
) -> usize
    ensures value { result ≡ (remove_answered rules h bytes.now name.now out.old).verdict.number }
    ensures answer_after { answer.new ≡ answer_numbers (remove_answered rules h bytes.now name.now out.old) }
    ensures out_after { out.new ≡ remove_output rules h bytes.now name.now out.old }
{
    hand(
        edit_remove::remove_from_tree(bytes, h, rules, name, out),
        answer,
    )
}
