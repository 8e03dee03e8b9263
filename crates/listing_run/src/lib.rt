// The program `listing`, which also `listing_refuses` is: standard input is read, and the text of its listing written; which part of an entry
// cannot be read is said on standard error.
#![tactic(auto)]

use listing_text::{Listed, put_listing};
use part_words::put_part;
use saying::{read_whole, say};
use std::io;
use std::io::Read;
use words::{id_length, is_word, word_at};

// No text is longer: an entry takes at most three times its bytes.
const MOST: usize = 196672;

// What cannot be read, where that is a part of an entry.
fn tell(stderr: &impl Print, a: Listed) -> io::Result<()> {
    if a.verdict.part == 0 {
        return Ok(());
    }
    let mut words = [0u8; 64];
    let n = put_part(&mut words, a.verdict.part);
    say(stderr, words.get(..n).unwrap_or_default())?;
    say(stderr, b"\n")
}

// An object that was read, with ids of so many bytes.
fn listing(stdout: &impl Print, stderr: &impl Print, object: &[u8], h: usize) -> io::Result<()> {
    let mut out = [0u8; MOST];
    let a = put_listing(object, h, &mut out);
    say(stdout, out.get(..a.len).unwrap_or_default())?;
    tell(stderr, a)
}

// The object behind the word `sha256` and an empty line; none where the input is an object: no tree object begins so.
fn behind_words(s: &[u8]) -> Option<&[u8]> {
    let ids = id_length(s);
    let next = word_at(s, ids.next).next;
    if ids.h == 32 && next != ids.next && is_word(s, ids.next, b"") {
        s.get(next..)
    } else {
        None
    }
}

fn input(stdout: &impl Print, stderr: &impl Print, s: &[u8]) -> io::Result<()> {
    match behind_words(s) {
        Some(object) => listing(stdout, stderr, object, 32),
        None => listing(stdout, stderr, s, 20),
    }
}

// Lists an input: the longest object with the word and the empty line ahead of it, or a byte more where it is longer.
pub fn run(stdin: &mut impl Read, stdout: &impl Print, stderr: &impl Print) -> io::Result<()> {
    let mut bytes = [0u8; 65545];
    match read_whole(stdin, &mut bytes) {
        Ok(Some(n)) => input(stdout, stderr, bytes.get(..n).unwrap_or_default()),
        Ok(None) => input(stdout, stderr, &bytes),
        Err(_) => say(stderr, b"listing: standard input cannot be read\n"),
    }
}
