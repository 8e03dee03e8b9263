// Git's comparison of two names by words and blocks, for the lookup (docs/FORMAT.md, "Order"): what `order::name_order` answers, in fewer steps and more code.
#![tactic(auto)]

ghost use Rattle.std.specs.Prelude.{◌≡◌, ◌+◌, ◌≤◌, ◌<◌, length, take, drop};
ghost use Rattle.scan.specs.Word.{WordOf};
ghost use Rattle.order.specs.Order.{name_order};
ghost use Rattle.compare.specs.Told.{turned, Within, Ready, Told};

use ground::shorter;
use order::by_next;
use std::cmp::Ordering;

// By sums and rests, and not by `from_be_bytes`: so equal words are passed by one branch, before the two are turned round.

// A byte as a number of eight bytes.
fn wide(x: u8) -> u64
    ensures same { result ≡ x }
    ensures small { result < 256 }
{
    x as u64
}

// Four bytes as one number, the first lowest.
fn four(s: &[u8], i: usize) -> u64
    requires { i + 4 ≤ length s.now }
    ensures made { WordOf (take 4 (drop i s.now)) result }
    ensures small { result < 4294967296 }
{
    let a = wide(s[i]);
    let b = wide(s[i + 1]);
    let c = wide(s[i + 2]);
    let d = wide(s[i + 3]);
    a + b * 256 + c * 65536 + d * 16777216
}

// Eight bytes as one number, the first lowest.
fn eight(s: &[u8], i: usize) -> u64
    requires { i + 8 ≤ length s.now }
    ensures { WordOf (take 8 (drop i s.now)) result }
{
    let low = four(s, i);
    let high = four(s, i + 4);
    low + high * 4294967296
}

// The two lowest bytes of a number, the lowest first.
fn turn_2(w: u64) -> u64
    ensures { result ≡ turned 2 w }
{
    w % 256 * 256 + w / 256 % 256
}

// The four lowest bytes of a number, the lowest first.
fn turn_4(w: u64) -> u64
    ensures { result ≡ turned 4 w }
{
    turn_2(w) * 65536 + turn_2(w / 65536)
}

// The eight bytes of a number, the lowest first.
fn turn_8(w: u64) -> u64
    ensures { result ≡ turned 8 w }
{
    turn_4(w) * 4294967296 + turn_4(w / 4294967296)
}

// Two names that agree up to a place, by their next four bytes.
fn order_4(a: &[u8], b: &[u8], i: usize) -> Ordering
    requires { Ready a.now b.now i 4 }
    ensures { Told a.now b.now (i + 4) result }
{
    let x = four(a, i);
    let y = four(b, i);
    if x == y {
        return Ordering::Equal;
    }
    if turn_8(x) < turn_8(y) {
        return Ordering::Less;
    }
    Ordering::Greater
}

// By their next eight bytes.
fn order_8(a: &[u8], b: &[u8], i: usize) -> Ordering
    requires { Ready a.now b.now i 8 }
    ensures { Told a.now b.now (i + 8) result }
{
    let x = eight(a, i);
    let y = eight(b, i);
    if x == y {
        return Ordering::Equal;
    }
    if turn_8(x) < turn_8(y) {
        return Ordering::Less;
    }
    Ordering::Greater
}

// By their next sixteen bytes.
fn order_16(a: &[u8], b: &[u8], i: usize) -> Ordering
    requires { Ready a.now b.now i 16 }
    ensures { Told a.now b.now (i + 16) result }
{
    match order_8(a, b, i) {
        Ordering::Less => Ordering::Less,
        Ordering::Equal => order_8(a, b, i + 8),
        Ordering::Greater => Ordering::Greater,
    }
}

// By their next thirty-two bytes.
fn order_32(a: &[u8], b: &[u8], i: usize) -> Ordering
    requires { Ready a.now b.now i 32 }
    ensures { Told a.now b.now (i + 32) result }
{
    match order_16(a, b, i) {
        Ordering::Less => Ordering::Less,
        Ordering::Equal => order_16(a, b, i + 16),
        Ordering::Greater => Ordering::Greater,
    }
}

// Two names by their first n bytes, one after the other.
fn order_few(a: &[u8], b: &[u8], n: usize) -> Ordering
    requires { Within a.now b.now n }
    ensures { Told a.now b.now n result }
{
    for i in 0..n {
        if a[i] < b[i] {
            return Ordering::Less;
        }
        if b[i] < a[i] {
            return Ordering::Greater;
        }
    }
    Ordering::Equal
}

// By their first n bytes, at most eight: the first four, and the last four, which may overlap them.
fn under_8(a: &[u8], b: &[u8], n: usize) -> Ordering
    requires { Within a.now b.now n × (n ≤ 8) }
    ensures { Told a.now b.now n result }
{
    if n < 4 {
        return order_few(a, b, n);
    }
    match order_4(a, b, 0) {
        Ordering::Less => Ordering::Less,
        Ordering::Equal => order_4(a, b, n - 4),
        Ordering::Greater => Ordering::Greater,
    }
}

// By their first n bytes, at most sixteen.
fn under_16(a: &[u8], b: &[u8], n: usize) -> Ordering
    requires { Within a.now b.now n × (n ≤ 16) }
    ensures { Told a.now b.now n result }
{
    if n < 8 {
        return under_8(a, b, n);
    }
    match order_8(a, b, 0) {
        Ordering::Less => Ordering::Less,
        Ordering::Equal => order_8(a, b, n - 8),
        Ordering::Greater => Ordering::Greater,
    }
}

// By their first n bytes, sixteen or more, and at most thirty-two.
fn from_16(a: &[u8], b: &[u8], n: usize) -> Ordering
    requires { Within a.now b.now n × (16 ≤ n) × (n ≤ 32) }
    ensures { Told a.now b.now n result }
{
    match order_16(a, b, 0) {
        Ordering::Less => Ordering::Less,
        Ordering::Equal => order_16(a, b, n - 16),
        Ordering::Greater => Ordering::Greater,
    }
}

// 0 where two names that agree up to a place agree in the n bytes from there on too, and 1 where not. The loop has no way out.
// A number counted up to by hand, and not a bool over a range: so compiled it takes many bytes at once in fewer steps.
fn differ(a: &[u8], b: &[u8], i: usize, n: usize) -> u8
    requires { Ready a.now b.now i n }
    ensures none { result ≡ 0 → take (i + n) a.now ≡ take (i + n) b.now }
    ensures some { (result ≡ 0 → ⊥) → take (i + n) a.now ≡ take (i + n) b.now → ⊥ }
{
    let mut hit: u8 = 0;
    let mut k: usize = 0;
    while k < n {
        if a[i + k] != b[i + k] {
            hit = 1;
        }
        k += 1;
    }
    hit
}

// By their first n bytes, thirty-two or more, and at most sixty-four.
fn from_32(a: &[u8], b: &[u8], n: usize) -> Ordering
    requires { Within a.now b.now n × (32 ≤ n) × (n ≤ 64) }
    ensures { Told a.now b.now n result }
{
    if differ(a, b, 0, 16) != 0 {
        return order_16(a, b, 0);
    }
    match order_16(a, b, 16) {
        Ordering::Less => Ordering::Less,
        Ordering::Equal => order_32(a, b, n - 32),
        Ordering::Greater => Ordering::Greater,
    }
}

// By their first n bytes, of which the first sixty-four agree.
fn after_64(a: &[u8], b: &[u8], n: usize) -> Ordering
    requires { Within a.now b.now n × (take 64 a.now ≡ take 64 b.now) × (64 ≤ n) }
    ensures { Told a.now b.now n result }
{
    // By place: the last block ends with the names, and may overlap the one before.
    let last = n - 32;
    let mut i = 64;
    while i < last {
        if differ(a, b, i, 32) != 0 {
            return order_32(a, b, i);
        }
        i += 32;
    }
    order_32(a, b, last)
}

// By their first n bytes, of which the first forty-eight agree.
fn after_48(a: &[u8], b: &[u8], n: usize) -> Ordering
    requires { Within a.now b.now n × (take 48 a.now ≡ take 48 b.now) × (64 ≤ n) }
    ensures { Told a.now b.now n result }
{
    match order_16(a, b, 48) {
        Ordering::Less => Ordering::Less,
        Ordering::Equal => after_64(a, b, n),
        Ordering::Greater => Ordering::Greater,
    }
}

// By their first n bytes, sixty-four or more.
fn from_64(a: &[u8], b: &[u8], n: usize) -> Ordering
    requires { Within a.now b.now n × (64 ≤ n) }
    ensures { Told a.now b.now n result }
{
    if differ(a, b, 0, 32) != 0 {
        return order_32(a, b, 0);
    }
    if differ(a, b, 32, 16) != 0 {
        return order_16(a, b, 32);
    }
    after_48(a, b, n)
}

// By their first n bytes.
fn by_first(a: &[u8], b: &[u8], n: usize) -> Ordering
    requires { Within a.now b.now n }
    ensures { Told a.now b.now n result }
{
    // Not a match over ranges: the tests stand in the order that is fastest.
    if 64 <= n {
        return from_64(a, b, n);
    }
    if 32 <= n {
        return from_32(a, b, n);
    }
    if 16 <= n {
        return from_16(a, b, n);
    }
    under_16(a, b, n)
}

// Names of any length and with any bytes; each says whether it is a tree's.
pub fn name_order(a: &[u8], atree: bool, b: &[u8], btree: bool) -> Ordering
    ensures { result ≡ name_order a.now atree b.now btree }
{
    let n = shorter(a.len(), b.len());
    match by_first(a, b, n) {
        Ordering::Less => Ordering::Less,
        Ordering::Equal => by_next(a, atree, b, btree, n),
        Ordering::Greater => Ordering::Greater,
    }
}
