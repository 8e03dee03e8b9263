// Checks a tree object strictly as it arrives: `./run check [sha256] [1|2] <tree` (docs/FORMAT.md, "A check in pieces"). Without a rule set it is
// 2. Reads pieces of 512 bytes and holds one name; prints how many entries there are, or a refusal with its number, place and part.
#![tactic(auto)]

use arriving::Marks;
use asking::ask;
use ground::{Answer, DONE};
use piece_ends::{finish, start};
use pieces::feed;
use saying::{done, read_full, say_refused};
use std::io;
use std::io::Read;

// As many pieces are longer together than the bound, past which an answer is settled.
const MOST_PIECES: usize = 2097153;

fn tell(rt: &impl Print, a: Answer) -> io::Result<()> {
    match done(a.verdict) {
        Ok(()) => println!(rt; "entries {}", a.count),
        Err(v) => say_refused(rt, v),
    }
}

// The first piece, which the words stand ahead of.
fn begin(
    input: &mut impl Read,
    held: &mut [u8; 4096],
    ends: &mut [u32; 4097],
) -> io::Result<Marks> {
    let mut piece = [0u8; 512];
    let n = read_full(input, &mut piece)?;
    let s = piece.get(..n).unwrap_or_default();
    let asked = ask(s);
    let m = start(asked.h, asked.rules);
    Ok(feed(held, ends, m, s.get(asked.from..).unwrap_or_default()))
}

// The check with a piece more, and how many bytes that had.
fn more(
    input: &mut impl Read,
    held: &mut [u8; 4096],
    ends: &mut [u32; 4097],
    m: Marks,
) -> io::Result<(Marks, usize)> {
    let mut piece = [0u8; 512];
    let n = read_full(input, &mut piece)?;
    Ok((feed(held, ends, m, piece.get(..n).unwrap_or_default()), n))
}

// Piece after piece, up to the end or a refusal.
fn check(
    input: &mut impl Read,
    held: &mut [u8; 4096],
    ends: &mut [u32; 4097],
) -> io::Result<Marks> {
    let mut m = begin(input, held, ends)?;
    for _ in 0..MOST_PIECES {
        if m.verdict.number != DONE {
            break;
        }
        let (fed, n) = more(input, held, ends, m)?;
        m = fed;
        if n == 0 {
            break;
        }
    }
    Ok(m)
}

fn main(rt: HostRuntime) -> io::Result<()> {
    let mut held = [0u8; 4096];
    let mut ends = [0u32; 4097];
    let marks = check(&mut rt.stdin(), &mut held, &mut ends)?;
    tell(&rt, finish(marks))
}
