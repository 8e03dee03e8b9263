// What stands before the name in one record of the text that `git mktree -z` takes (docs/FORMAT.md, "Text").
#![tactic(auto)]

ghost use Rattle.std.specs.Prelude.{◌≡◌, take};
ghost use Rattle.text_form.specs.Form.{between, within, all_within, word_len, front_len, name_from};

use scan::same_bytes;

// The first bytes, at most so many.
fn first(s: &[u8], n: usize) -> &[u8]
    ensures { result.now ≡ take n s.now }
{
    if s.len() < n {
        return s;
    }
    &s[0..n]
}

// Whether a byte lies from one to another.
fn between(x: u8, a: u8, b: u8) -> bool
    ensures { result ≡ between a b x }
{
    if x < a {
        return false;
    }
    x <= b
}

// Whether it lies in one of two ranges.
fn within(x: u8, a: u8, b: u8, c: u8, d: u8) -> bool
    ensures { result ≡ within a b c d x }
{
    if between(x, a, b) {
        return true;
    }
    between(x, c, d)
}

// Whether each byte does.
fn all_within(t: &[u8], a: u8, b: u8, c: u8, d: u8) -> bool
    ensures { result ≡ all_within a b c d t.now }
{
    let mut i: usize = 0;
    while i < t.len() {
        if within(t[i], a, b, c, d) {
            i += 1;
        } else {
            return false;
        }
    }
    true
}

// How many bytes the word at the front has with the space behind it, or 0 where none of the three stands there.
fn word_len(b: &[u8]) -> usize
    ensures { result ≡ word_len b.now }
{
    if same_bytes(first(b, 5), b"blob ") {
        return 5;
    }
    if same_bytes(first(b, 5), b"tree ") {
        return 5;
    }
    if same_bytes(first(b, 7), b"commit ") {
        return 7;
    }
    0
}

// How many bytes stand before the id, or 0 where they are not of the form.
fn front_len(b: &[u8]) -> usize
    ensures { result ≡ front_len b.now }
{
    if b.len() <= 6 {
        return 0;
    }
    if b[6] != b' ' {
        return 0;
    }
    if all_within(&b[..6], b'0', b'7', b'0', b'7') {
        let n = word_len(&b[7..]);
        if n == 0 {
            return 0;
        }
        return 7 + n;
    }
    0
}

// How many bytes stand before the name, or 0 where they are not of the form.
pub fn name_from(b: &[u8], h: usize) -> usize
    ensures { result ≡ name_from h b.now }
{
    if 32 < h {
        return 0;
    }
    let id = front_len(b);
    if id == 0 {
        return 0;
    }
    let tab = id + 2 * h;
    if b.len() <= tab {
        return 0;
    }
    if b[tab] != b'\t' {
        return 0;
    }
    if all_within(&b[id..tab], b'0', b'9', b'a', b'f') {
        return tab + 1;
    }
    0
}
