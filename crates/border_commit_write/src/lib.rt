// The calls that write commits as C has them (include/sarpukten.h): the answer in a lent array, its number returned too.
#![tactic(auto)]

ghost use Rattle.std.specs.Prelude.{◌≡◌};
ghost use Rattle.border.specs.Border.{answer_numbers};
ghost use Rattle.border_commit_write.specs.Border.{parts_of, size_said, answer_said, output_said};

use border::hand;
use header::CommitParts;

// The parts that ten lent numbers say.
fn parts_in(parts: &[usize; 10]) -> CommitParts
    ensures { result ≡ parts_of parts.now }
{
    CommitParts {
        tree: parts[0],
        author_start: parts[1],
        author_end: parts[2],
        committer_start: parts[3],
        committer_end: parts[4],
        encoding: parts[5],
        encoding_start: parts[6],
        encoding_end: parts[7],
        message_start: parts[8],
        message_end: parts[9],
    }
}

// The size of the commit that parts, parents and headers name.
pub fn commit_size(
    bytes: &[u8],
    h: usize,
    parts: &[usize; 10],
    parents: &[usize],
    headers: &[usize],
    answer: &mut [usize; 4],
) -> usize
    ensures value { result ≡ (size_said h bytes.now parts.now parents.now headers.now).verdict.number }
    ensures answer_after { answer.new ≡ answer_numbers (size_said h bytes.now parts.now parents.now headers.now) }
{
    let p = parts_in(parts);
    hand(
        commit_write::commit_size(bytes, h, p, parents, headers),
        answer,
    )
}

// The commit that parts, parents and headers name, written.
pub fn write_commit(
    bytes: &[u8],
    h: usize,
    parts: &[usize; 10],
    parents: &[usize],
    headers: &[usize],
    out: &mut [u8],
    answer: &mut [usize; 4],
) -> usize
    ensures value { result
        ≡ (answer_said h bytes.now parts.now parents.now headers.now out.old).verdict.number }
    ensures answer_after { answer.new
        ≡ answer_numbers (answer_said h bytes.now parts.now parents.now headers.now out.old) }
    ensures out_after { out.new
        ≡ output_said h bytes.now parts.now parents.now headers.now out.old }
{
    let p = parts_in(parts);
    hand(
        commit_write::write_commit(bytes, h, p, parents, headers, out),
        answer,
    )
}
