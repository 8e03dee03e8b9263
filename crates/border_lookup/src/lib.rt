// The order of names and the lookups as C has them (include/sarpukten.h): the answer in a lent array, its number returned too.
#![tactic(auto)]

ghost use Rattle.std.specs.Prelude.{◌≡◌};
ghost use Rattle.order.specs.Order.{name_order, order_number};
ghost use Rattle.border.specs.Border.{answer_numbers};
ghost use Rattle.lookups.specs.Many.{answers_after};
ghost use Rattle.border_lookup.specs.Border.{lookup_among, any_among, many_answered, looked_numbers};

use border::hand;
use lookup::Looked;

// Git's comparison of two names: -1, 0 or 1.
pub fn name_order(a: &[u8], atree: bool, b: &[u8], btree: bool) -> i8
    ensures { result ≡ order_number (name_order a.now atree b.now btree) }
{
    order::order_number(order::name_order(a, atree, b, btree))
}

// Hands over the answer of a lookup, and returns its number. Not `border::hand`: C lends five numbers here (include/sarpukten.h).
fn hand_looked(l: Looked, answer: &mut [usize; 5]) -> usize
    ensures value { result ≡ l.verdict.number }
    ensures answer_after { answer.new ≡ looked_numbers l }
{
    let v = l.verdict;
    *answer = [v.number, v.place, v.part, l.index, l.compared];
    v.number
}

// The lookup of a name among lent records.
pub fn bisect_entry(
    object: &[u8],
    h: usize,
    records: &[usize],
    name: &[u8],
    folder: bool,
    answer: &mut [usize; 5],
) -> usize
    ensures value { result ≡ (lookup_among h object.now records.now name.now folder).verdict.number }
    ensures answer_after { answer.new ≡ looked_numbers (lookup_among h object.now records.now name.now folder) }
{
    hand_looked(
        lookup::bisect_entry(object, h, records, name, folder),
        answer,
    )
}

// The same for a name of whatever sort.
pub fn bisect_any(
    object: &[u8],
    h: usize,
    records: &[usize],
    name: &[u8],
    answer: &mut [usize; 5],
) -> usize
    ensures value { result ≡ (any_among h object.now records.now name.now).verdict.number }
    ensures answer_after { answer.new ≡ looked_numbers (any_among h object.now records.now name.now) }
{
    hand_looked(lookup::bisect_any(object, h, records, name), answer)
}

// Many names looked up among lent records, their answers into a lent list.
pub fn bisect_entries(
    object: &[u8],
    h: usize,
    records: &[usize],
    names: &[u8],
    sought: &[usize],
    answers: &mut [usize],
    answer: &mut [usize; 4],
) -> usize
    ensures value { result ≡ (many_answered h object.now records.now names.now sought.now answers.old).verdict.number }
    ensures answer_after { answer.new ≡ answer_numbers (many_answered h object.now records.now names.now sought.now answers.old) }
    ensures answers_after { answers.new ≡ answers_after h object.now records.now names.now sought.now answers.old }
{
    hand(
        lookups::bisect_entries(object, h, records, names, sought, answers),
        answer,
    )
}
