// A strict check of a tree object that arrives in pieces: one name is held, with marks beside it (docs/FORMAT.md, "A check in pieces").
// Here stand its state, its definitions and their laws; its code is in `pieces` and below, what it answers on a whole object in `checking`.
#![tactic(auto)]

use ground::Verdict;

// The most bytes of a name that is held, and one more than that: as many names can be open at once.
pub const MOST_HELD: usize = 4096;

pub const MOST_ENDS: usize = 4097;

// How the name that arrives stands to the held one: alike so far, above it, or not above it.
#[derive(Clone, Copy)]
pub enum Stand {
    Level,
    Over,
    NotOver,
}

// The entry before: how many bytes its name has, and whether it is a folder. An empty name says that there is none, and no Option: any two
// of the numbers that C lends are an entry before (include/sarpukten.h), and come back as they were (`marks_back`).
#[derive(Clone, Copy)]
pub struct Last {
    pub size: usize,
    pub folder: bool,
}

// The entry that arrives: whether its mode text is permitted, whether it is a folder, how many bytes of its name have come, with how many
// of them the held name begins, and how it stands.
#[derive(Clone, Copy)]
pub struct Line {
    pub written: bool,
    pub folder: bool,
    pub size: usize,
    pub shared: usize,
    pub stand: Stand,
}

// Where in an entry the check stands: so many of its first eight bytes have come, in its name, or so many bytes of its id are to come.
#[derive(Clone, Copy)]
pub enum Phase {
    Head(usize),
    Name(Line),
    Id(Line, usize),
}

// What is kept beside the held name: the refusal that is settled, the id length, the rule set, the bytes so far, the entry's first byte,
// the entries that are finished, the entry before, how many names are open, the entry's first bytes, and the phase.
#[derive(Clone, Copy)]
pub struct Marks {
    pub verdict: Verdict,
    pub h: usize,
    pub rules: u16,
    pub at: usize,
    pub first: usize,
    pub count: usize,
    pub last: Last,
    pub ended: usize,
    pub head: [u8; 8],
    pub phase: Phase,
}

// The check: the held name, which the name that arrives overwrites; the lengths of the names of earlier files with which it begins, the
// longest last; and the marks. The code takes the three apart, since C lends the two rooms one by one (`sarpukten_check_piece`).
#[derive(Clone, Copy)]
pub struct Check {
    pub held: [u8; 4096],
    pub ends: [u32; 4097],
    pub marks: Marks,
}

// Some bytes of a piece were taken: the marks after them, and the place of the next.
#[derive(Clone, Copy)]
pub struct Taken {
    pub marks: Marks,
    pub next: usize,
}
