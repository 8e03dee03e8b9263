// Lists a tree object: `./run listing [sha256] <tree` (docs/FORMAT.md, "Examples"). It is read plainly: how many entries it has, and for each a
// line with its mode text, the word of its kind, its id in hex and its name. A refusal is one line with its number and place; which part of an
// entry cannot be read is said on standard error.
#![tactic(auto)]

use std::io;

fn main(rt: HostRuntime) -> io::Result<()> {
    listing_run::run(&mut rt.stdin(), &rt.stdout(), &rt.stderr())
}
