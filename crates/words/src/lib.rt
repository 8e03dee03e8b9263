// The words of a command line, which a program is given as lines ahead of its input; an empty line ends them.
#![tactic(auto)]

ghost use Rattle.std.specs.Prelude.{◌≡◌, min};
ghost use Rattle.ground.specs.Scan.{same_bytes};
ghost use Rattle.words.specs.Words.{word_at, text_at, id_length_of, rule_set_at};

use scan::{find_byte, same_bytes};

// A word: where it starts and ends, and where the next line starts. Start, end and next never fall, and none is past the end of the bytes.
#[derive(Clone, Copy)]
pub struct Word {
    pub start: usize,
    pub end: usize,
    pub next: usize,
}

// The length of ids that the first word says, and where the next line starts.
#[derive(Clone, Copy)]
pub struct Ids {
    pub h: usize,
    pub next: usize,
}

// The smaller of two places.
fn nearer(a: usize, b: usize) -> usize
    ensures { result ≡ min a b }
{
    if a < b { a } else { b }
}

// The line from a place on, or at the end of the bytes nothing.
pub fn word_at(s: &[u8], at: usize) -> Word
    ensures { result ≡ word_at s.now at }
{
    let start = nearer(at, s.len());
    let end = find_byte(s, start, b'\n');
    if end < s.len() {
        let next = end + 1;
        return Word { start, end, next };
    }
    Word {
        start,
        end,
        next: end,
    }
}

// Whether the line from a place on is a text.
pub fn is_word(s: &[u8], at: usize, text: &[u8]) -> bool
    ensures { result ≡ same_bytes (text_at s.now at) text.now }
{
    let word = word_at(s, at);
    let start = word.start;
    let end = word.end;
    same_bytes(&s[start..end], text)
}

// The length of ids: 32 where the first word is `sha256`, which is passed over, else 20.
pub fn id_length(s: &[u8]) -> Ids
    ensures { result ≡ id_length_of s.now }
{
    if is_word(s, 0, b"sha256") {
        let word = word_at(s, 0);
        let next = word.next;
        return Ids { h: 32, next };
    }
    Ids { h: 20, next: 0 }
}

// The rule set that a word says: 1 or 2, or 0 for any other word, which every call refuses.
pub fn rule_set(s: &[u8], at: usize) -> u16
    ensures { result ≡ rule_set_at s.now at }
{
    if is_word(s, at, b"1") {
        return 1;
    }
    if is_word(s, at, b"2") {
        return 2;
    }
    0
}
