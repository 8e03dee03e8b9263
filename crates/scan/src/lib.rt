// The scans of bytes: eight, sixteen and thirty-two at a time.
#![tactic(auto)]

ghost use Rattle.std.specs.Prelude.{◌≡◌, ◌+◌, ◌*◌, ◌≤◌, ◌<◌, min, length, take, drop, MatchOption};
ghost use Rattle.ground.specs.Scan.{count_to, place_from, common_start, same_bytes, free_of};
ghost use Rattle.scan.specs.Word.{WordOf, marks_of, Marked, FirstAt};

use ground::shorter;

// 128, and 1, in the place of each of eight bytes.
const HIGHS: u64 = 0x8080808080808080;

const LOWS: u64 = 0x0101010101010101;

// Eight bytes as one number, the first lowest.
fn eight(s: &[u8], i: usize) -> u64
    requires { i + 8 ≤ length s.now }
    ensures { WordOf (take 8 (drop i s.now)) result }
{
    // By index: so written the eight bytes are read at once.
    u64::from_le_bytes([
        s[i],
        s[i + 1],
        s[i + 2],
        s[i + 3],
        s[i + 4],
        s[i + 5],
        s[i + 6],
        s[i + 7],
    ])
}

// 128 in the place of each of eight bytes that is 0.
fn marks(w: u64) -> u64
    ensures { Marked w result }
{
    HIGHS - ((((w | HIGHS) - LOWS) | w) & HIGHS)
}

// 128 in the place of each of eight bytes that is x.
fn marks_at(s: &[u8], i: usize, x: u8) -> u64
    requires { i + 8 ≤ length s.now }
    ensures { WordOf (marks_of x (take 8 (drop i s.now))) result }
{
    marks(eight(s, i) ^ (u64::from(x) * LOWS))
}

// Which of eight bytes is the first that is not 0, where there is one.
fn place(m: u64) -> usize
    ensures first { FirstAt m result }
    ensures most { result ≤ 8 }
{
    m.trailing_zeros() as usize / 8
}

// Where x stands next at or after a place, or where the bytes end, byte by byte.
fn find_last(s: &[u8], from: usize, x: u8) -> usize
    requires { from ≤ length s.now }
    ensures { result ≡ place_from x s.now from }
{
    for i in from..s.len() {
        if s[i] == x {
            return i;
        }
    }
    s.len()
}

// The same, eight bytes at a time.
fn find_near(s: &[u8], from: usize, x: u8) -> usize
    requires { from ≤ length s.now }
    ensures { result ≡ place_from x s.now from }
{
    // By place: where eight bytes stand is part of the answer, and fewer are left at the end.
    let mut i = from;
    while 8 <= s.len() - i {
        let m = marks_at(s, i, x);
        if m != 0 {
            return i + place(m);
        }
        i += 8;
    }
    find_last(s, i, x)
}

// Whether no byte is x. Each is looked at: the loop has no way out, so that many are looked at at once.
pub fn lacks(s: &[u8], x: u8) -> bool
    ensures { result ≡ free_of x s.now }
{
    let mut free = true;
    for b in s {
        free &= *b != x;
    }
    free
}

// The first x of so many times eight bytes that have one.
fn first_of(s: &[u8], from: usize, words: usize, x: u8) -> usize
    requires in_bounds { from + 8 * words ≤ length s.now }
    requires found { place_from x s.now from < from + 8 * words }
    ensures { result ≡ place_from x s.now from }
{
    let last = words - 1;
    for k in 0..last {
        let i = from + 8 * k;
        let m = marks_at(s, i, x);
        if m != 0 {
            return i + place(m);
        }
    }
    let i = from + 8 * last;
    i + place(marks_at(s, i, x))
}

// Where x stands next at or after a place, or where the bytes end (the place itself if that is past the end).
pub fn find_byte(s: &[u8], from: usize, x: u8) -> usize
    ensures { result ≡ place_from x s.now from }
{
    if s.len() < from {
        return from;
    }
    // By place: where a block stands is part of the answer, and less than one is left at the end.
    let mut i = from;
    while 32 <= s.len() - i {
        if !lacks(&s[i..i + 32], x) {
            return first_of(s, i, 4, x);
        }
        i += 32;
    }
    find_near(s, i, x)
}

// How many bytes stand before the first x: all of them where there is none. It is asked of few bytes, or of such as come soon.
pub fn count_to(s: &[u8], x: u8) -> usize
    ensures { result ≡ count_to x s.now }
{
    find_near(s, 0, x)
}

// The block of thirty-two bytes that has the next NUL at or after a place. The last block ends with the bytes, and may overlap the one before.
fn skip(s: &[u8], from: usize) -> Option<usize>
    requires { from + 32 ≤ length s.now }
    ensures { MatchOption result (place_from 0 s.now from ≡ length s.now) (λ at. (at + 32 ≤ length s.now) × (place_from 0 s.now from ≡ place_from 0 s.now at)
        × (place_from 0 s.now at < at + 32)) }
{
    // By place: where the block stands is the answer.
    let last = s.len() - 32;
    let mut at = from;
    while at < last {
        if !lacks(&s[at..at + 32], 0) {
            return Some(at);
        }
        at += 32;
    }
    if lacks(&s[last..], 0) {
        None
    } else {
        Some(last)
    }
}

// Where NUL stands next at or after a place that has thirty-two bytes or more from it on, by blocks of thirty-two.
fn find_far(s: &[u8], from: usize) -> usize
    requires { from + 32 ≤ length s.now }
    ensures { result ≡ place_from 0 s.now from }
{
    match skip(s, from) {
        Some(at) => first_of(s, at, 4, 0),
        None => s.len(),
    }
}

// Where NUL stands next at or after a place, as find_byte says it. Most names end in the first sixteen bytes.
pub fn find_nul(s: &[u8], from: usize) -> usize
    ensures { result ≡ place_from 0 s.now from }
{
    if s.len() < from {
        return from;
    }
    if s.len() - from < 48 {
        return find_near(s, from, 0);
    }
    if !lacks(&s[from..from + 16], 0) {
        return first_of(s, from, 2, 0);
    }
    find_far(s, from + 16)
}

// Where the first of NUL and slash stands at or after a place, as find_byte says it of one byte. Both are looked for in sixteen bytes at a time;
// where they have a slash, which may be one behind the NUL, each is looked for by itself.
pub fn find_nul_or_slash(s: &[u8], from: usize) -> usize
    ensures { result ≡ min (place_from 0 s.now from) (place_from 47 s.now from) }
{
    if s.len() < from {
        return from;
    }
    // By place: where a block stands is part of the answer, and less than one is left at the end.
    let mut i = from;
    while 16 <= s.len() - i {
        let block = &s[i..i + 16];
        let nul = !lacks(block, 0);
        let slash = !lacks(block, b'/');
        if nul | slash {
            if slash {
                break;
            }
            return first_of(s, i, 2, 0);
        }
        i += 16;
    }
    shorter(find_near(s, i, 0), find_near(s, i, b'/'))
}

// How far two runs of bytes agree that agree up to a place, byte by byte up to n.
fn common_last(a: &[u8], b: &[u8], n: usize, from: usize) -> usize
    requires { (n ≡ min (length a.now) (length b.now)) × (from ≤ n) }
    ensures { result ≡ from + common_start (drop from a.now) (drop from b.now) }
{
    for i in from..n {
        if a[i] != b[i] {
            return i;
        }
    }
    n
}

// How far two runs of bytes agree.
pub fn common_start(a: &[u8], b: &[u8]) -> usize
    ensures { result ≡ common_start a.now b.now }
{
    let n = shorter(a.len(), b.len());
    // By place: where eight bytes stand is part of the answer, and fewer are left at the end.
    let mut i = 0;
    while 8 <= n - i {
        let d = eight(a, i) ^ eight(b, i);
        if d != 0 {
            return i + place(d);
        }
        i += 8;
    }
    common_last(a, b, n, i)
}

// Whether two runs of bytes are the same.
pub fn same_bytes(a: &[u8], b: &[u8]) -> bool
    ensures { result ≡ same_bytes a.now b.now }
{
    a.len() == b.len() && common_start(a, b) == a.len()
}
