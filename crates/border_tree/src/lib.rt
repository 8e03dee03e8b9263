// The calls that read trees as C has them (include/sarpukten.h): the answer in a lent array, its number returned too.
#![tactic(auto)]

ghost use Rattle.std.specs.Prelude.{◌≡◌};
ghost use Rattle.entry.specs.Decode.{step_of};
ghost use Rattle.reading.specs.Listing.{listing};
ghost use Rattle.reading.specs.Whole.{read_answer, read_records};
ghost use Rattle.strict.specs.Strict.{strict_answer, strict_records};
ghost use Rattle.border.specs.Border.{answer_numbers};
ghost use Rattle.border_tree.specs.Border.{step_numbers};

use border::hand;
use entry::Cursor;

// The entry at a place of a tree object.
pub fn tree_step(bytes: &[u8], h: usize, at: usize, answer: &mut [usize; 10]) -> usize
    ensures value { result ≡ (step_of h bytes.now (record { at = at })).verdict.number }
    ensures answer_after { answer.new ≡ step_numbers (step_of h bytes.now (record { at = at })) }
{
    let c = Cursor { at };
    let s = c.step(bytes, h);
    *answer = [
        s.verdict.number,
        s.verdict.place,
        s.verdict.part,
        s.found as usize,
        s.next.at,
        s.entry.mode,
        s.entry.name_start,
        s.entry.name_end,
        s.entry.id_start,
        s.entry.text_start,
    ];
    s.verdict.number
}

// A whole tree object into lent records, plainly.
pub fn read_tree(bytes: &[u8], h: usize, records: &mut [usize], answer: &mut [usize; 4]) -> usize
    ensures value { result ≡ (read_answer h bytes.now (listing h bytes.now) records.old).verdict.number }
    ensures answer_after { answer.new ≡ answer_numbers (read_answer h bytes.now (listing h bytes.now) records.old) }
    ensures records_after { records.new ≡ read_records h bytes.now (listing h bytes.now) records.old }
{
    hand(reading::read_tree(bytes, h, records), answer)
}

// The same, strictly, by a rule set.
pub fn read_tree_strict(
    bytes: &[u8],
    h: usize,
    rules: u16,
    records: &mut [usize],
    answer: &mut [usize; 4],
) -> usize
    ensures value { result ≡ (strict_answer rules h bytes.now records.old).verdict.number }
    ensures answer_after { answer.new ≡ answer_numbers (strict_answer rules h bytes.now records.old) }
    ensures records_after { records.new ≡ strict_records rules h bytes.now records.old }
{
    hand(strict::read_tree_strict(bytes, h, rules, records), answer)
}
