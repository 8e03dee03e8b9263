// Removes an entry from a strict tree object: `./run remove [sha256] [1|2] NAME <object >new` (docs/FORMAT.md, "Edits"). Without a rule set it is 2.
// A refusal is one line with its number, place and part.
#![tactic(auto)]

use edit_remove::remove_from_tree;
use saying::{read_whole, say_answer, say_too_long};
use std::io;
use words::{id_length, is_word, rule_set, word_at};

// Words and object together have at most so many bytes, and the new object no more.
const LONGEST: usize = 135168;

// The rule set that the words say, and where the next word stands: without one it is 2, and the next word is where it would stand. The last word is
// the name.
fn rules_at(s: &[u8], at: usize) -> (u16, usize) {
    let rules = rule_set(s, at);
    let next = word_at(s, at).next;
    if rules == 0 || is_word(s, next, b"") {
        (2, at)
    } else {
        (rules, next)
    }
}

fn remove(rt: &impl Print, object: &[u8], h: usize, rules: u16, name: &[u8]) -> io::Result<()> {
    let mut out = [0u8; LONGEST];
    let a = remove_from_tree(object, h, rules, name, &mut out);
    say_answer(rt, a, &out)
}

// The words, the empty line behind them, and the object.
fn work(rt: &impl Print, s: &[u8]) -> io::Result<()> {
    let ids = id_length(s);
    let (rules, first) = rules_at(s, ids.next);
    let word = word_at(s, first);
    let blank = word_at(s, word.next);
    let name = s.get(word.start..word.end).unwrap_or_default();
    let object = s.get(blank.next..).unwrap_or_default();
    remove(rt, object, ids.h, rules, name)
}

// Reads standard input; longer than it may be it is 2.
fn main(rt: HostRuntime) -> io::Result<()> {
    let mut all = [0u8; LONGEST];
    match read_whole(&mut rt.stdin(), &mut all)? {
        Some(n) => work(&rt, all.get(..n).unwrap_or_default()),
        None => say_too_long(&rt),
    }
}
