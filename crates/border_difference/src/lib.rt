// The call that compares two trees of a bundle as C has it (include/sarpukten.h): the answer in a lent array, its number returned too.
#![tactic(auto)]

ghost use Rattle.std.specs.Prelude.{◌≡◌};
ghost use Rattle.border.specs.Border.{answer_numbers};
ghost use Rattle.border_difference.specs.Border.{compare_answered, compare_items, compare_paths};

use border::hand;

// What differs between two trees.
pub fn compare_trees(
    bundle: &[u8],
    left: &[u8],
    right: &[u8],
    items: &mut [usize],
    paths: &mut [u8],
    answer: &mut [usize; 4],
) -> usize
    ensures value { result ≡ (compare_answered bundle.now left.now right.now items.old paths.old).verdict.number }
    ensures answer_after { answer.new ≡ answer_numbers (compare_answered bundle.now left.now right.now items.old paths.old) }
    ensures after { items.new ≡ compare_items bundle.now left.now right.now items.old paths.old }
    ensures paths_after { paths.new ≡ compare_paths bundle.now left.now right.now items.old paths.old }
{
    hand(
        difference::compare_trees(bundle, left, right, items, paths),
        answer,
    )
}
