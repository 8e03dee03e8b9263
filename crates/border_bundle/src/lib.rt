// Bundles as C has them (include/sarpukten.h): the answer in a lent array, its number returned too.
#![tactic(auto)]

ghost use Rattle.std.specs.Prelude.{◌≡◌};
ghost use Rattle.bundle.specs.Bundle.{check_of};
ghost use Rattle.border_bundle.specs.Border.{no_object, object_asked, checked_numbers, object_numbers};

use finding::find_object;
use ground::{FINE, NOT_THERE, Verdict, longer, sizes};

// An object of a bundle: its kind, and where its bytes begin and end; zeros on a refusal. C is lent these numbers, so the kind is no enum.
#[derive(Clone, Copy)]
pub struct Object {
    pub verdict: Verdict,
    pub kind: usize,
    pub start: usize,
    pub end: usize,
}

// A bundle checked whole: its H, its rule set and how many objects it has.
pub fn check_bundle(bytes: &[u8], answer: &mut [usize; 6]) -> usize
    ensures value { result ≡ (check_of bytes.now).verdict.number }
    ensures answer_after { answer.new ≡ checked_numbers (check_of bytes.now) }
{
    let c = bundle::check_bundle(bytes);
    let v = c.verdict;
    *answer = [v.number, v.place, v.part, c.h, c.rules, c.count];
    v.number
}

// A refusal has no kind and no place.
fn no_object(verdict: Verdict) -> Object
    ensures { result ≡ no_object verdict }
{
    Object {
        verdict,
        kind: 0,
        start: 0,
        end: 0,
    }
}

// The object of an id: refusals 2, 15.
pub fn object_of(bytes: &[u8], id: &[u8]) -> Object
    ensures { result ≡ object_asked bytes.now id.now }
{
    match sizes(longer(bytes.len(), id.len()), 0) {
        Err(v) => no_object(v),
        Ok(()) => match find_object(bytes, id) {
            None => no_object(Verdict {
                number: NOT_THERE,
                ..FINE
            }),
            Some(f) => Object {
                verdict: FINE,
                kind: f.kind,
                start: f.start,
                end: f.end,
            },
        },
    }
}

// The same, handed over.
pub fn bundle_object(bytes: &[u8], id: &[u8], answer: &mut [usize; 6]) -> usize
    ensures value { result ≡ (object_asked bytes.now id.now).verdict.number }
    ensures answer_after { answer.new ≡ object_numbers (object_asked bytes.now id.now) }
{
    let o = object_of(bytes, id);
    let v = o.verdict;
    *answer = [v.number, v.place, v.part, o.kind, o.start, o.end];
    v.number
}
