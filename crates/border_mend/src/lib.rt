// The call that mends a tree as C has it (include/sarpukten.h): the answer in a lent array, its number returned too.
#![tactic(auto)]

ghost use Rattle.std.specs.Prelude.{◌≡◌};
ghost use Rattle.border_mend.specs.Border.{mend_answered, mend_numbers, mend_fates, mend_output};

// An object mended, with what was done to each entry.
pub fn mend_tree(
    bytes: &[u8],
    h: usize,
    fates: &mut [usize],
    out: &mut [u8],
    answer: &mut [usize; 5],
) -> usize
    ensures value { result ≡ (mend_answered h bytes.now fates.old out.old).verdict.number }
    ensures answer_after { answer.new ≡ mend_numbers (mend_answered h bytes.now fates.old out.old) }
    ensures fates_after { fates.new ≡ mend_fates h bytes.now fates.old out.old }
    ensures out_after { out.new ≡ mend_output h bytes.now fates.old out.old }
{
    let a = mend::mend_tree(bytes, h, fates, out);
    let v = a.verdict;
    *answer = [v.number, v.place, v.part, a.count, a.entries];
    v.number
}
