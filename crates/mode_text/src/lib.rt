// The text of a mode: octal digits to 16 bits and back (docs/FORMAT.md, "Modes"; it follows src/tree/mod.rs).
#![tactic(auto)]

ghost use Rattle.std.specs.Prelude.{◌≡◌, [], ◌∷◌, ◌+◌, ◌%◌, ◌≤◌, min};
ghost use Rattle.mode_text.specs.Read.{octal_from, has_six, text_len, settle, rest_at, read_text, read_text_at};
ghost use Rattle.mode_text.specs.Write.{trimmed, short, mode_text};

use scan::count_to;

// At most six bytes: the first len are the text, the others are 0. A buffer with its length: the text is made without a heap, and C is given it in this shape.
#[derive(Clone, Copy)]
pub struct ShortText {
    pub bytes: [u8; 6],
    pub len: usize,
}

// The octal text that stands for 16 bits in a tree.
pub fn text_of(m: u16) -> ShortText
    ensures { result ≡ mode_text m }
{
    if m == 0 {
        return ShortText {
            bytes: [b'0', 0, 0, 0, 0, 0],
            len: 1,
        };
    }
    trimmed(
        digit(m / 0o100000),
        digit(m / 0o10000),
        digit(m / 0o1000),
        digit(m / 0o100),
        digit(m / 0o10),
        digit(m),
    )
}

// The last octal digit of a number, as text.
fn digit(n: u16) -> u8
    ensures { result ≡ 48 + n % 8 }
{
    b'0' + (n % 8) as u8
}

// The text of six digits: a tree's loses its first, or has 0 for it.
fn trimmed(a: u8, b: u8, c: u8, d: u8, e: u8, f: u8) -> ShortText
    ensures { result ≡ short (trimmed (a ∷ b ∷ c ∷ d ∷ e ∷ f ∷ [])) }
{
    if b != b'4' {
        return ShortText {
            bytes: [a, b, c, d, e, f],
            len: 6,
        };
    }
    if a == b'0' {
        return ShortText {
            bytes: [b, c, d, e, f, 0],
            len: 5,
        };
    }
    ShortText {
        bytes: [b'0', b, c, d, e, f],
        len: 6,
    }
}

// The text that begins at a place, and the place where the rest begins. Eight bytes decide it.
pub fn read_at(s: &[u8], at: usize) -> Option<(u16, usize)>
    ensures { result ≡ read_text_at s.now at }
{
    if s.len() < at {
        return None;
    }
    let end = eight_on(at, s.len());
    match read(&s[at..end]) {
        Some((m, n)) => Some((m, at + n)),
        None => None,
    }
}

// The text that stands at the front.
fn read(i: &[u8]) -> Option<(u16, usize)>
    ensures { result ≡ read_text i.now }
{
    if i.len() == 0 {
        return None;
    }
    let n = text_len(i);
    if 7 < n {
        return None;
    }
    let first = i[0];
    let next = rest_at(n, i.len());
    match octal_of(&i[..n]) {
        Some(v) => Some((settled(v, first), next)),
        None => None,
    }
}

// Eight bytes on from a place, or the end where that comes first.
fn eight_on(at: usize, len: usize) -> usize
    requires { at ≤ len }
    ensures { result ≡ min (at + 8) len }
{
    if len - at < 8 { len } else { at + 8 }
}

// The low 16 bits of a number in octal digits.
fn octal_of(t: &[u8]) -> Option<u16>
    ensures { result ≡ octal_from 0 t.now }
{
    let mut sum: u16 = 0;
    let mut n: usize = 0;
    while n < t.len() {
        let b = t[n];
        if b < b'0' {
            return None;
        }
        if b'7' < b {
            return None;
        }
        sum = sum % 0o20000 * 8 + (b - b'0') as u16;
        n += 1;
    }
    Some(sum)
}

// Byte 6 is a space and byte 5 is none.
fn has_six(i: &[u8]) -> bool
    ensures { result ≡ has_six i.now }
{
    if i.len() <= 6 {
        return false;
    }
    if i[6] == b' ' { i[5] != b' ' } else { false }
}

// How many bytes the mode text has.
fn text_len(i: &[u8]) -> usize
    ensures { result ≡ text_len i.now }
{
    if has_six(i) { 6 } else { count_to(i, b' ') }
}

// 16384 from a text that begins with 0 is told from 16384 from another.
fn settled(v: u16, first: u8) -> u16
    ensures { result ≡ settle v first }
{
    if v == 0o40000 {
        if first == b'0' { 0o140000 } else { v }
    } else {
        v
    }
}

// Where the rest begins after a text of n of len bytes.
fn rest_at(n: usize, len: usize) -> usize
    ensures { result ≡ rest_at n len }
{
    if n < len { n + 1 } else { 1 }
}
