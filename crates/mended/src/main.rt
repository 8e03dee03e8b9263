// Mends a tree object: `./run mended [sha256] <object >new` (docs/FORMAT.md, "Mending"); the program `mend` says what is done to each entry.
// A refusal is one line with its number, place and part.
#![tactic(auto)]

use ground::Answer;
use mend::mend_tree;
use saying::{read_whole, say_answer, say_too_long};
use std::io;
use std::io::Read;
use words::{id_length, word_at};

// The word and the object together have at most so many bytes, the new object no more, and so many entries: one has 22 at least.
const LONGEST: usize = 135168;

const MOST: usize = 6144;

// The word, the empty line behind it, and the object.
fn mended(s: &[u8], fates: &mut [usize], out: &mut [u8]) -> Answer {
    let ids = id_length(s);
    let blank = word_at(s, ids.next);
    let a = mend_tree(s.get(blank.next..).unwrap_or_default(), ids.h, fates, out);
    Answer {
        verdict: a.verdict,
        count: a.count,
    }
}

// An input that is longer than it may be is 2.
fn work(
    rt: &impl Print,
    input: &mut impl Read,
    all: &mut [u8],
    fates: &mut [usize],
    out: &mut [u8],
) -> io::Result<()> {
    match read_whole(input, all)? {
        Some(n) => say_answer(
            rt,
            mended(all.get(..n).unwrap_or_default(), fates, out),
            out,
        ),
        None => say_too_long(rt),
    }
}

fn main(rt: HostRuntime) -> io::Result<()> {
    let mut all = [0u8; LONGEST];
    let mut fates = [0usize; MOST];
    let mut out = [0u8; LONGEST];
    work(&rt, &mut rt.stdin(), &mut all, &mut fates, &mut out)
}
