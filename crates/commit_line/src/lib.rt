// The lines of a commit that begin with a word: those of ids, and those of values (docs/FORMAT.md, "Commits"; Rust: src/parse.rs).
#![tactic(auto)]

ghost use Rattle.std.specs.Prelude.{◌≡◌};
ghost use Rattle.commit_line.specs.Line.{word_at, id_from, id_at, line_at};

use ground::byte_at;
use hex_digits::is_hex;
use scan::{find_byte, same_bytes};

// Whether a word and one space stand at a place.
fn word_at(s: &[u8], at: usize, word: &[u8]) -> bool
    ensures { result ≡ word_at word.now s.now at }
{
    at < s.len()
        && word.len() < s.len() - at
        && s[at + word.len()] == b' '
        && same_bytes(&s[at..at + word.len()], word)
}

// Whether 2H hex digits and LF stand at a place.
fn id_from(s: &[u8], from: usize, h: usize) -> bool
    ensures { result ≡ id_from h s.now from }
{
    from < s.len()
        && h <= (s.len() - from) / 2
        && byte_at(s, from + 2 * h) == b'\n'
        && is_hex(&s[from..from + 2 * h])
}

// Whether the line of an id stands at a place: the word, a space, 2H hex digits and LF.
pub fn id_line(s: &[u8], at: usize, word: &[u8], h: usize) -> bool
    ensures { result ≡ id_at word.now h s.now at }
{
    word_at(s, at, word) && id_from(s, at + word.len() + 1, h)
}

// The line at a place: the word, a space, and the value up to LF.
pub fn value_line(s: &[u8], at: usize, word: &[u8]) -> Option<(usize, usize)>
    ensures { result ≡ line_at word.now s.now at }
{
    if !word_at(s, at, word) {
        return None;
    }
    let from = at + word.len() + 1;
    let lf = find_byte(s, from, b'\n');
    if lf < s.len() { Some((from, lf)) } else { None }
}
