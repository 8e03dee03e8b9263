// What is lent to a call, and how what it answered and left is held against what is wanted.
ghost use Rattle.std.specs.Prelude.{◌≤◌};

use crate::cases::{ANSWERS, BYTES, Case, LEFT, NUMBERS, WANTED, X, Y};
use crate::wide::wide;

// What is lent holds these before a call: what a call does not write is still so after it.
pub const BYTE: u8 = 165;

pub const NUMBER: usize = 11936128518282651045;

// What a call answered, and what it was lent, as it was left.
#[derive(Clone, Copy)]
pub struct Left {
    pub told: [usize; ANSWERS],
    pub out: [u8; BYTES],
    pub p: [usize; NUMBERS],
    pub q: [usize; NUMBERS],
}

// A room; more than there is cannot be lent, and nothing is.
pub fn room(c: Case, i: usize, most: usize) -> usize
    ensures { result ≤ most }
{
    let n = c.number(i);
    if most < n { 0 } else { n }
}

// Whether what is wanted stands at the front of what was lent, and the others are as they were.
fn left_as<T: Copy + PartialEq>(lent: Option<&[T]>, want: &[T], before: T) -> bool {
    match lent.unwrap_or_default().strip_prefix(want) {
        Some(rest) => rest.iter().all(|x| *x == before),
        None => false,
    }
}

// Whether all is as it is to be.
pub fn right(c: Case, l: Left) -> bool {
    l.told == wide(c.list(WANTED))
        && left_as(l.out.get(..room(c, 0, BYTES)), c.bytes(LEFT), BYTE)
        && left_as(l.p.get(..room(c, 1, NUMBERS)), c.left_list(X), NUMBER)
        && left_as(l.q.get(..room(c, 2, NUMBERS)), c.left_list(Y), NUMBER)
}
