// A path followed in a bundle, as C has it (include/sarpukten.h): the answer in two lent arrays, its number returned too.
#![tactic(auto)]

ghost use Rattle.std.specs.Prelude.{◌≡◌};
ghost use Rattle.path.specs.Path.{follow};
ghost use Rattle.border_path.specs.Border.{followed_numbers};

// A path followed from a root id: the mode and the id's length, and the id by value.
pub fn follow_path(
    bytes: &[u8],
    root: &[u8],
    way: &[u8],
    answer: &mut [usize; 5],
    id: &mut [u8; 32],
) -> usize
    ensures value { result ≡ (follow bytes.now root.now way.now).verdict.number }
    ensures answer_after { answer.new ≡ followed_numbers (follow bytes.now root.now way.now) }
    ensures id_after { id.new ≡ (follow bytes.now root.now way.now).id }
{
    let r = path::follow_path(bytes, root, way);
    let v = r.verdict;
    *answer = [v.number, v.place, v.part, r.mode, r.size];
    let found = r.id;
    *id = found;
    v.number
}
