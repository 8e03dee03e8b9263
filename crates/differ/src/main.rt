// Lists what differs between two trees of a bundle: `./run differ LEFT RIGHT <bundle`, the ids of both root trees in hex (docs/FORMAT.md,
// "Differences"). Prints the lines of `git diff-tree -r -t --no-renames`, or a refusal in one line. Words and bundle have at most 2,400,000
// bytes together, and the items are at most 10,000, with 600,000 bytes of paths: all of it lies on the stack, beside 4 MiB of an index.
#![tactic(auto)]

use difference::compare_trees;
use ground::Verdict;
use hex_of_id::hex_of_id;
use id_of_hex::id_of_hex;
use item::ITEM;
use saying::{done, read_whole, say, say_refused, say_too_long};
use std::io;
use std::io::Read;
use words::word_at;

// An id that was read: its first bytes, and how many there are.
#[derive(Clone, Copy)]
struct Id {
    bytes: [u8; 32],
    size: usize,
}

impl Id {
    fn as_slice(&self) -> &[u8] {
        self.bytes.get(..self.size).unwrap_or_default()
    }
}

// One side of an item: its mode, 0 where it is not there, and where its id stands in the bundle.
#[derive(Clone, Copy)]
struct Side {
    mode: usize,
    at: usize,
}

// The id that a text says in hex.
fn id_of(text: &[u8]) -> Result<Id, Verdict> {
    let mut bytes = [0u8; 32];
    let a = id_of_hex(text, &mut bytes);
    done(a.verdict)?;
    Ok(Id {
        bytes,
        size: a.count,
    })
}

// The id of h bytes of a side in hex; zeros where the side is not there.
fn say_id(rt: &impl Print, bundle: &[u8], h: usize, side: Side) -> io::Result<()> {
    let mut digits = [b'0'; 64];
    let mut long = h.saturating_mul(2);
    if side.mode != 0 {
        let id = bundle.get(side.at..side.at.saturating_add(h));
        long = hex_of_id(id.unwrap_or_default(), &mut digits).count;
    }
    say(rt, digits.get(..long).unwrap_or_default())
}

// Git's letter: added, deleted, another sort of thing, or modified.
fn letter(left: usize, right: usize) -> char {
    match (left, right) {
        (0, _) => 'A',
        (_, 0) => 'D',
        _ if left / 4096 != right / 4096 => 'T',
        _ => 'M',
    }
}

// Whether Git writes a path that has this byte in quotes.
fn is_odd(b: u8) -> bool {
    !matches!(b, b' '..=b'~') || matches!(b, b'"' | b'\\')
}

// The letter that stands for a byte behind a backslash.
fn short(b: u8) -> Option<char> {
    match b {
        7 => Some('a'),
        8 => Some('b'),
        9 => Some('t'),
        10 => Some('n'),
        11 => Some('v'),
        12 => Some('f'),
        13 => Some('r'),
        b'"' => Some('"'),
        b'\\' => Some('\\'),
        _ => None,
    }
}

// A byte of a path in quotes, as Git writes it.
fn say_quoted(rt: &impl Print, b: u8) -> io::Result<()> {
    if !is_odd(b) {
        return say(rt, &[b]);
    }
    match short(b) {
        Some(c) => print!(rt; "\\{c}"),
        None => print!(rt; "\\{b:03o}"),
    }
}

// A path as Git writes it.
fn say_path(rt: &impl Print, s: &[u8]) -> io::Result<()> {
    if !s.iter().any(|b| is_odd(*b)) {
        return say(rt, s);
    }
    say(rt, b"\"")?;
    for b in s {
        say_quoted(rt, *b)?;
    }
    say(rt, b"\"")
}

// Both modes in six octal digits, both ids and the letter.
fn say_change(rt: &impl Print, bundle: &[u8], h: usize, left: Side, right: Side) -> io::Result<()> {
    print!(rt;
        ":{:06o} {:06o} ",
        left.mode % 0o1000000,
        right.mode % 0o1000000
    )?;
    say_id(rt, bundle, h, left)?;
    say(rt, b" ")?;
    say_id(rt, bundle, h, right)?;
    print!(rt; " {}\t", letter(left.mode, right.mode))
}

// The line of an item: where its path starts and ends, and both modes and places.
fn say_item(
    rt: &impl Print,
    bundle: &[u8],
    h: usize,
    paths: &[u8],
    item: &[usize],
) -> io::Result<()> {
    if let [start, end, left, right, i, j] = item {
        let left = Side {
            mode: *left,
            at: *i,
        };
        let right = Side {
            mode: *right,
            at: *j,
        };
        say_change(rt, bundle, h, left, right)?;
        say_path(rt, paths.get(*start..*end).unwrap_or_default())?;
        say(rt, b"\n")?;
    }
    Ok(())
}

// The lines of so many items.
fn say_items(
    rt: &impl Print,
    bundle: &[u8],
    h: usize,
    items: &[usize],
    paths: &[u8],
    count: usize,
) -> io::Result<()> {
    for item in items.chunks_exact(ITEM).take(count) {
        say_item(rt, bundle, h, paths, item)?;
    }
    Ok(())
}

// Two trees of a bundle, by their ids in hex: how long an id is, and how many items there are.
fn compare(
    bundle: &[u8],
    left: &[u8],
    right: &[u8],
    items: &mut [usize],
    paths: &mut [u8],
) -> Result<(usize, usize), Verdict> {
    let left = id_of(left)?;
    let right = id_of(right)?;
    let a = compare_trees(bundle, left.as_slice(), right.as_slice(), items, paths);
    done(a.verdict)?;
    Ok((left.size, a.count))
}

// The two words, the empty line behind them, and the bundle.
fn differ(rt: &impl Print, s: &[u8], items: &mut [usize], paths: &mut [u8]) -> io::Result<()> {
    let first = word_at(s, 0);
    let second = word_at(s, first.next);
    let blank = word_at(s, second.next);
    let left = s.get(first.start..first.end).unwrap_or_default();
    let right = s.get(second.start..second.end).unwrap_or_default();
    let bundle = s.get(blank.next..).unwrap_or_default();
    match compare(bundle, left, right, items, paths) {
        Ok((h, count)) => say_items(rt, bundle, h, items, paths, count),
        Err(v) => say_refused(rt, v),
    }
}

// Reads standard input into the lent bytes.
fn work(
    rt: &impl Print,
    input: &mut impl Read,
    all: &mut [u8],
    items: &mut [usize],
    paths: &mut [u8],
) -> io::Result<()> {
    match read_whole(input, all)? {
        Some(n) => differ(rt, all.get(..n).unwrap_or_default(), items, paths),
        None => say_too_long(rt),
    }
}

fn main(rt: HostRuntime) -> io::Result<()> {
    let mut all = [0u8; 2400000];
    let mut items = [0usize; 60000];
    let mut paths = [0u8; 600000];
    work(&rt, &mut rt.stdin(), &mut all, &mut items, &mut paths)
}
