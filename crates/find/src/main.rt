// Finds what a path leads to in a bundle: `./run find ROOT PATH <bundle`, the root's id in hex (docs/FORMAT.md, "Bundles"). Prints the mode,
// the word of its kind and the id, or a refusal in one line. Words and bundle have at most 4,000,000 bytes together: the bundle is lent
// whole, and the stack, of 8 MiB, has to hold it beside the 4 MiB that a bundle with its ids in no order needs.
#![tactic(auto)]

use ground::Verdict;
use hex_of_id::hex_of_id;
use id_of_hex::id_of_hex;
use mode::EntryMode;
use mode_text::ShortText;
use path::follow_path;
use path_walk::Followed;
use saying::{done, read_whole, say, say_refused, say_too_long};
use std::io;
use std::io::Read;
use words::word_at;

// A text, and a space behind it. `bisect` has the same: a crate for these few lines would be no plainer.
fn say_text(rt: &impl Print, t: ShortText) -> io::Result<()> {
    say(rt, t.bytes.get(..t.len).unwrap_or_default())?;
    say(rt, b" ")
}

// Mode, word and id.
fn say_found(rt: &impl Print, f: Followed) -> io::Result<()> {
    let mut digits = [0u8; 64];
    let mode = EntryMode {
        internal: (f.mode % 65536) as u16,
    };
    say_text(rt, mode.as_bytes())?;
    say_text(rt, mode.as_str())?;
    let a = hex_of_id(f.id.get(..f.size).unwrap_or_default(), &mut digits);
    say(rt, digits.get(..a.count).unwrap_or_default())?;
    say(rt, b"\n")
}

// What a path leads to in a bundle, from the root whose id is said in hex.
fn followed(bundle: &[u8], root: &[u8], path: &[u8]) -> Result<Followed, Verdict> {
    let mut id = [0u8; 32];
    let read = id_of_hex(root, &mut id);
    done(read.verdict)?;
    let f = follow_path(bundle, id.get(..read.count).unwrap_or_default(), path);
    done(f.verdict)?;
    Ok(f)
}

// The two words, the empty line behind them, and the bundle.
fn find(rt: &impl Print, s: &[u8]) -> io::Result<()> {
    let first = word_at(s, 0);
    let second = word_at(s, first.next);
    let blank = word_at(s, second.next);
    let root = s.get(first.start..first.end).unwrap_or_default();
    let path = s.get(second.start..second.end).unwrap_or_default();
    match followed(s.get(blank.next..).unwrap_or_default(), root, path) {
        Ok(f) => say_found(rt, f),
        Err(v) => say_refused(rt, v),
    }
}

// Reads standard input into the lent bytes.
fn work(rt: &impl Print, input: &mut impl Read, all: &mut [u8]) -> io::Result<()> {
    match read_whole(input, all)? {
        Some(n) => find(rt, all.get(..n).unwrap_or_default()),
        None => say_too_long(rt),
    }
}

fn main(rt: HostRuntime) -> io::Result<()> {
    let mut all = [0u8; 4000000];
    work(&rt, &mut rt.stdin(), &mut all)
}
