// Writes the strict tree object of a text: `./run import [sha256] [1|2] <text` (docs/FORMAT.md, "Text"). Without a rule set it is 2. The text
// is what `git ls-tree -z` prints, its records in any order, and has at most 262,144 bytes. A refusal is one line with its number, place and part.
#![tactic(auto)]

use asking::ask;
use saying::{read_full, say_answer, say_too_long};
use std::io;
use std::io::Read;
use tree_import::import_tree;

// The longest text, and the room for its object, which is shorter.
const LONGEST: usize = 262144;

// What the words ask, and the text behind them.
fn import(rt: &impl Print, s: &[u8], out: &mut [u8]) -> io::Result<()> {
    let asked = ask(s);
    let text = s.get(asked.from..).unwrap_or_default();
    if LONGEST < text.len() {
        return say_too_long(rt);
    }
    let a = import_tree(text, asked.h, asked.rules, out);
    say_answer(rt, a, out)
}

fn work(rt: &impl Print, input: &mut impl Read, all: &mut [u8], out: &mut [u8]) -> io::Result<()> {
    let n = read_full(input, all)?;
    import(rt, all.get(..n).unwrap_or_default(), out)
}

fn main(rt: HostRuntime) -> io::Result<()> {
    let mut all = [0u8; 262272];
    let mut out = [0u8; 262144];
    work(&rt, &mut rt.stdin(), &mut all, &mut out)
}
