// Many lookups in one listing: a lent list of names, and a lent list of answers (docs/FORMAT.md, "Many lookups").
// The answers of the first names are kept in an array of the call's own until every name was looked up, so those are searched once; names past them are
// looked up again to be stored. A refusal leaves the lent answers as they were.
#![tactic(auto)]

ghost use Rattle.std.specs.Prelude.{◌≡◌, ℕ, ◌+◌, ◌*◌, ◌<◌, ◌≤◌, length, get_or, take, drop};
ghost use Rattle.std.proofs.lemmas.List.Edits.{sets};
ghost use Rattle.ground.specs.Verdict.{stored};
ghost use Rattle.lookups.specs.Many.{width, many, no_sought, sought_of, well_sought, one_answer, first_bad, kept, all_kept, first_gate, unless_bad, many_answer, answers_after};

use entry_record::WIDTH;
use ground::{Answer, BAD_RECORD, DONE, FEW_RECORDS, FINE, Verdict, bounds, longer};
use lookup::{Looked, bisect_entry};

// The numbers of a sought name, and those of a stored answer.
pub const EACH: usize = 3;

// The names whose answers are kept until all are looked up.
const FIRST: usize = 64;

// Refusal 10 of a name.
const BAD: Looked = Looked {
    verdict: Verdict {
        number: BAD_RECORD,
        ..FINE
    },
    index: 0,
    compared: 0,
};

// A name that is sought: where it stands in the lent names, and 1 for a folder or 0 for anything else: three of the numbers that C lends, and any
// other mark is refused, so it is no `bool`.
#[derive(Clone, Copy)]
pub struct Sought {
    pub start: usize,
    pub end: usize,
    pub mark: usize,
}

// Name i of the flat numbers, which is there.
fn sought_at(sought: &[usize], i: usize) -> Sought
    requires { i < many (length sought.now) }
    ensures { result ≡ get_or (sought_of sought.now) i no_sought }
{
    let at = i * EACH;
    let start = sought[at];
    let end = sought[at + 1];
    let mark = sought[at + 2];
    Sought { start, end, mark }
}

// Whether a sought name does not end before it starts, lies inside, and has 0 or 1 for a mark.
fn well_sought(q: Sought, len: usize) -> bool
    ensures { result ≡ well_sought len q }
{
    if q.end < q.start || len < q.end {
        return false;
    }
    q.mark <= 1
}

// One name looked up.
fn look(object: &[u8], h: usize, records: &[usize], names: &[u8], q: Sought) -> Looked
    ensures { result ≡ one_answer h object.now records.now names.now q }
{
    if well_sought(q, names.len()) {
        let start = q.start;
        let end = q.end;
        return bisect_entry(object, h, records, &names[start..end], q.mark == 1);
    }
    BAD
}

// Stores answer i, where there is room for it; no answer has room in part.
fn put_answer(answers: &mut [usize], i: usize, a: Looked)
    requires { i * width < length answers.old → i * width + width ≤ length answers.old }
    ensures { answers.new ≡ sets answers.old (i * width) (kept a) }
{
    if answers.len() / EACH <= i {
        return;
    }
    // By index: the numbers of an answer lie behind one another in the flat list that C lends.
    let at = i * EACH;
    answers[at] = a.verdict.number;
    answers[at + 1] = a.index;
    answers[at + 2] = a.compared;
}

// The names from an index on: 10 at the first that met one, and until then each answer is stored, where there is room for it.
fn each(
    object: &[u8],
    h: usize,
    records: &[usize],
    names: &[u8],
    sought: &[usize],
    from: usize,
    answers: &mut [usize],
) -> Verdict
    requires { (i : ℕ) → i < many (length sought.now) → i * width < length answers.old → i * width + width ≤ length answers.old }
    ensures value { result ≡ first_bad (one_answer h object.now records.now names.now) from (drop from (sought_of sought.now)) }
    ensures answers_after { result.number ≡ 0 → answers.new ≡ sets answers.old (from * width) (all_kept (one_answer h object.now records.now names.now) (drop from (sought_of sought.now))) }
{
    let n = sought.len() / EACH;
    for i in from..n {
        let q = sought_at(sought, i);
        let a = look(object, h, records, names, q);
        if a.verdict.number == BAD_RECORD {
            return Verdict {
                number: BAD_RECORD,
                place: i,
                ..FINE
            };
        }
        put_answer(answers, i, a);
    }
    FINE
}

// Copies so many numbers of the call's own, or all of them where they are fewer, to the front of a list that has room for them.
fn copy(answers: &mut [usize], own: &[usize], count: usize)
    requires { count ≤ length answers.old }
    ensures { answers.new ≡ sets answers.old 0 (take count own.now) }
{
    let n = count.min(own.len());
    answers[..n].copy_from_slice(&own[..n]);
}

// Every name looked up, and where none is refused every answer stored, for which there is room, and their number answered.
fn look_all(
    object: &[u8],
    h: usize,
    records: &[usize],
    names: &[u8],
    sought: &[usize],
    answers: &mut [usize],
) -> Answer
    requires { many (length sought.now) ≤ many (length answers.old) }
    ensures value { result ≡ unless_bad (first_bad (one_answer h object.now records.now names.now) 0 (sought_of sought.now)) (many (length sought.now)) }
    ensures answers_after { answers.new ≡ stored result.verdict (all_kept (one_answer h object.now records.now names.now) (sought_of sought.now)) answers.old }
{
    let n = sought.len() / EACH;
    let mut own = [0usize; 192];
    let v = each(object, h, records, names, sought, 0, &mut own);
    if v.number != DONE {
        return Answer {
            verdict: v,
            count: 0,
        };
    }
    let numbers = n * EACH;
    copy(answers, &own, numbers);
    each(object, h, records, names, sought, FIRST, answers);
    Answer {
        verdict: FINE,
        count: n,
    }
}

// Refusals 1, 2 and 4, by the lengths of what is lent: the longest bytes, the records, the names and the answers.
fn begins(h: usize, bytes: usize, records: usize, n: usize, room: usize) -> Result<(), Verdict>
    ensures { result ≡ first_gate h bytes records n room }
{
    match bounds(h, bytes, longer(records, longer(n, room))) {
        Err(v) => Err(v),
        Ok(()) => {
            if room < n {
                return Err(Verdict {
                    number: FEW_RECORDS,
                    place: n,
                    ..FINE
                });
            }
            Ok(())
        }
    }
}

// Looks up every name in one listing, and counts them.
pub fn bisect_entries(
    object: &[u8],
    h: usize,
    records: &[usize],
    names: &[u8],
    sought: &[usize],
    answers: &mut [usize],
) -> Answer
    ensures value { result ≡ many_answer h object.now records.now names.now sought.now (length answers.old) }
    ensures answers_after { answers.new ≡ answers_after h object.now records.now names.now sought.now answers.old }
{
    let bytes = longer(object.len(), names.len());
    match begins(
        h,
        bytes,
        records.len() / WIDTH,
        sought.len() / EACH,
        answers.len() / EACH,
    ) {
        Err(v) => Answer {
            verdict: v,
            count: 0,
        },
        Ok(()) => look_all(object, h, records, names, sought, answers),
    }
}
