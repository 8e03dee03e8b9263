// The calls that read commits as C has them (include/sarpukten.h): the answer in a lent array, its number returned too.
#![tactic(auto)]

ghost use Rattle.std.specs.Prelude.{◌≡◌};
ghost use Rattle.border.specs.Border.{answer_numbers};
ghost use Rattle.header.specs.Record.{header_at};
ghost use Rattle.unfold.specs.Unfold.{unfold_answer, unfold_after};
ghost use Rattle.commit_read.specs.Read.{commit_answer, commit_parents, commit_headers};
ghost use Rattle.border_commit.specs.Border.{commit_numbers};

use border::hand;
use commit_read::CommitRead;
use header::header_at;

// Hands over a commit's answer, and returns its number.
fn hand_commit(c: CommitRead, answer: &mut [usize; 16]) -> usize
    ensures value { result ≡ c.verdict.number }
    ensures answer_after { answer.new ≡ commit_numbers c }
{
    let number = c.verdict.number;
    let place = c.verdict.place;
    let part = c.verdict.part;
    let field = c.field;
    let np = c.parents;
    let nh = c.headers;
    let tree = c.parts.tree;
    let author = c.parts.author_start;
    let author_end = c.parts.author_end;
    let committer = c.parts.committer_start;
    let committer_end = c.parts.committer_end;
    let mark = c.parts.encoding;
    let encoding = c.parts.encoding_start;
    let encoding_end = c.parts.encoding_end;
    let message = c.parts.message_start;
    let message_end = c.parts.message_end;
    *answer = [
        number,
        place,
        part,
        field,
        np,
        nh,
        tree,
        author,
        author_end,
        committer,
        committer_end,
        mark,
        encoding,
        encoding_end,
        message,
        message_end,
    ];
    number
}

// A commit's parts, with its parents and extra headers into lent lists.
pub fn read_commit(
    bytes: &[u8],
    h: usize,
    parents: &mut [usize],
    headers: &mut [usize],
    answer: &mut [usize; 16],
) -> usize
    ensures value { result ≡ (commit_answer bytes.now h parents.old headers.old).verdict.number }
    ensures answer_after { answer.new ≡ commit_numbers (commit_answer bytes.now h parents.old headers.old) }
    ensures parents_after { parents.new ≡ commit_parents bytes.now h parents.old headers.old }
    ensures headers_after { headers.new ≡ commit_headers bytes.now h parents.old headers.old }
{
    hand_commit(commit_read::read_commit(bytes, h, parents, headers), answer)
}

// A header's value, unfolded.
pub fn unfold_value(
    bytes: &[u8],
    header: &[usize; 5],
    out: &mut [u8],
    answer: &mut [usize; 4],
) -> usize
    ensures value { result ≡ (unfold_answer bytes.now (header_at header.now 0) out.old).verdict.number }
    ensures answer_after { answer.new ≡ answer_numbers (unfold_answer bytes.now (header_at header.now 0) out.old) }
    ensures out_after { out.new ≡ unfold_after bytes.now (header_at header.now 0) out.old }
{
    let x = header_at(header, 0);
    hand(unfold::unfold(bytes, x, out), answer)
}
