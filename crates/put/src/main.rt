// Puts an entry into a strict tree object: `./run put [sha256] [1|2] MODE ID NAME <object >new`, the mode as it is written in an object, the id
// in hex (docs/FORMAT.md, "Edits"). Without a rule set it is 2. A refusal is one line with its number, place and part.
#![tactic(auto)]

use edit::put_in_tree;
use id_of_hex::id_of_hex;
use mode::EntryMode;
use saying::{done, read_whole, say_answer, say_refused, say_too_long};
use std::io;
use words::{Word, id_length, rule_set, word_at};

// Words and object together have at most so many bytes, and the new object no more.
const LONGEST: usize = 135168;

// No mode: a number that no rule set has.
const NO_MODE: usize = 65536;

// The bytes of a word.
fn text(s: &[u8], word: Word) -> &[u8] {
    s.get(word.start..word.end).unwrap_or_default()
}

// The rule set that the words say, and where the next word stands: without one it is 2, and the next word is where it would stand.
fn rules_at(s: &[u8], at: usize) -> (u16, usize) {
    match rule_set(s, at) {
        0 => (2, at),
        rules => (rules, word_at(s, at).next),
    }
}

// The mode whose text is a word.
fn mode_of(text: &[u8]) -> usize {
    let mode = EntryMode::from_bytes(text).mode;
    let written = mode.as_bytes();
    if written.bytes.get(..written.len).unwrap_or_default() == text {
        usize::from(mode.internal)
    } else {
        NO_MODE
    }
}

fn put(
    rt: &impl Print,
    object: &[u8],
    h: usize,
    rules: u16,
    mode: usize,
    name: &[u8],
    digits: &[u8],
) -> io::Result<()> {
    let mut out = [0u8; LONGEST];
    let mut id = [0u8; 32];
    let read = id_of_hex(digits, &mut id);
    if let Err(v) = done(read.verdict) {
        return say_refused(rt, v);
    }
    let id = id.get(..read.count).unwrap_or_default();
    let a = put_in_tree(object, h, rules, mode, name, id, &mut out);
    say_answer(rt, a, &out)
}

// The words, the empty line behind them, and the object.
fn work(rt: &impl Print, s: &[u8]) -> io::Result<()> {
    let ids = id_length(s);
    let (rules, first) = rules_at(s, ids.next);
    let mode = word_at(s, first);
    let id = word_at(s, mode.next);
    let name = word_at(s, id.next);
    let blank = word_at(s, name.next);
    put(
        rt,
        s.get(blank.next..).unwrap_or_default(),
        ids.h,
        rules,
        mode_of(text(s, mode)),
        text(s, name),
        text(s, id),
    )
}

// Reads standard input; longer than it may be it is 2.
fn main(rt: HostRuntime) -> io::Result<()> {
    let mut all = [0u8; LONGEST];
    match read_whole(&mut rt.stdin(), &mut all)? {
        Some(n) => work(&rt, all.get(..n).unwrap_or_default()),
        None => say_too_long(&rt),
    }
}
