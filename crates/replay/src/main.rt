// Replays the list of cases that is its standard input: what the Rust, Git's own objects and the paper answered (oracle/README.md),
// held against what the library answers. It names the cases that differ; the list's last ones are wrong on purpose, one for each number and
// list that is compared. A line for each call says how many cases there are and how many agree.
#![tactic(auto)]

mod calls;
mod cases;
mod commits;
mod in_pieces;
mod lent;
mod requests;
mod trees;
mod wide;

use calls::called;
use cases::{ALL_BYTES, ALL_NUMBERS, Case, FIELDS, TAKEN, WINDOW, given, piece, take};
use lent::right;
use std::io;
use std::io::Read;

// No list has more cases.
const MOST_CASES: usize = 1048576;

// The last call that there is.
const CALLS: usize = 31;

// How many differences are said one by one: more than the cases that are wrong on purpose.
const SAID: usize = 256;

// How many cases there are, and how many of them agree.
#[derive(Clone, Copy)]
struct Tally {
    cases: usize,
    agree: usize,
}

impl Tally {
    fn with(self, good: bool) -> Tally {
        Tally {
            cases: self.cases.wrapping_add(1),
            agree: self.agree.wrapping_add(usize::from(good)),
        }
    }

    fn differing(self) -> usize {
        self.cases.wrapping_sub(self.agree)
    }
}

const NONE: Tally = Tally { cases: 0, agree: 0 };

// The tally of each call, in the place of its number modulo 63, and of all.
#[derive(Clone, Copy)]
struct Tallies {
    each: [Tally; 63],
    all: Tally,
}

impl Tallies {
    fn with(self, call: usize, good: bool) -> Tallies {
        let mut each = self.each;
        let at = call % 63;
        each[at] = each[at].with(good);
        Tallies {
            each,
            all: self.all.with(good),
        }
    }
}

// A case: its call, whether it agrees, and how many bytes it has.
#[derive(Clone, Copy)]
struct Replayed {
    call: usize,
    good: bool,
    length: usize,
}

// The call, on what the case is given, and whether it answers and leaves what is wanted; so many bytes of the list were read. Where there is no such
// call, nothing is taken.
fn one_case(s: &mut [u8], g: &mut [usize], n: usize) -> Replayed {
    let call = usize::from(given(s, 0));
    if !matches!(call, 1..=CALLS) {
        return Replayed {
            call,
            good: false,
            length: 0,
        };
    }
    let at = take(s, g, 0, TAKEN, 2);
    let left = called(Case { s, g });
    let length = take(s, g, TAKEN, FIELDS, at);
    let good = right(Case { s, g }, left) && length <= n;
    Replayed { call, good, length }
}

// The window of the list that starts at a place of it: how many bytes it has.
fn window(list: &[u8], s: &mut [u8], from: usize) -> usize {
    if s.len() < WINDOW {
        return 0;
    }
    let bytes = piece(list, from % 1099511627776, WINDOW);
    let n = bytes.len();
    s[..n].copy_from_slice(bytes);
    n
}

// A case that differs is named: its index, from 0 on, and its call.
fn say_differing(rt: &impl Print, index: usize, call: usize) -> io::Result<()> {
    println!(rt; "differs: case {index} call {call}")
}

// Each case is counted, and named where it differs. The list ends with its bytes, or with a call that there is not.
fn replay(rt: &impl Print, list: &[u8], s: &mut [u8], g: &mut [usize]) -> io::Result<Tallies> {
    let mut tallies = Tallies {
        each: [NONE; 63],
        all: NONE,
    };
    let mut from: usize = 0;
    for index in 0..MOST_CASES {
        let n = window(list, s, from);
        if n == 0 {
            break;
        }
        let r = one_case(s, g, n);
        tallies = tallies.with(r.call, r.good);
        if !r.good && tallies.all.differing() <= SAID {
            say_differing(rt, index, r.call)?;
        }
        if r.length == 0 {
            break;
        }
        from = from.wrapping_add(r.length);
    }
    Ok(tallies)
}

// The line of a call.
fn say_call(rt: &impl Print, call: usize, t: Tally) -> io::Result<()> {
    println!(rt; "call {call}: {} agree {}", t.cases, t.agree)
}

// The whole list.
fn work(rt: &impl Print, list: &[u8], s: &mut [u8], g: &mut [usize]) -> io::Result<()> {
    let tallies = replay(rt, list, s, g)?;
    for call in 1..=CALLS {
        say_call(rt, call, tallies.each[call])?;
    }
    let all = tallies.all;
    println!(rt; "cases {}, differ {}", all.cases, all.differing())
}

fn main(rt: HostRuntime) -> io::Result<()> {
    let mut list = Vec::new(rt.alloc());
    rt.stdin().read_to_end(&mut list)?;
    let mut s = [0u8; ALL_BYTES];
    let mut g = [0usize; ALL_NUMBERS];
    work(&rt, list.as_slice(), &mut s, &mut g)
}
