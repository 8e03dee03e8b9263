// Writes a strict tree object as text: `./run export [sha256] [1|2] <tree | git mktree -z` (docs/FORMAT.md, "Text"). Without a rule set it
// is 2. An object has at most 131,072 bytes. A refusal is one line with its number, place and part.
#![tactic(auto)]

use asking::ask;
use saying::{read_full, say_answer, say_too_long};
use std::io;
use std::io::Read;
use tree_export::export_tree;

// The longest object, and the room for its text: an entry takes less than twice its bytes.
const LONGEST: usize = 131072;

// What the words ask, and the object behind them.
fn export(rt: &impl Print, s: &[u8], out: &mut [u8]) -> io::Result<()> {
    let asked = ask(s);
    let object = s.get(asked.from..).unwrap_or_default();
    if LONGEST < object.len() {
        return say_too_long(rt);
    }
    let a = export_tree(object, asked.h, asked.rules, out);
    say_answer(rt, a, out)
}

fn work(rt: &impl Print, input: &mut impl Read, all: &mut [u8], out: &mut [u8]) -> io::Result<()> {
    let n = read_full(input, all)?;
    export(rt, all.get(..n).unwrap_or_default(), out)
}

fn main(rt: HostRuntime) -> io::Result<()> {
    let mut all = [0u8; 131200];
    let mut out = [0u8; 262144];
    work(&rt, &mut rt.stdin(), &mut all, &mut out)
}
