// What an element of a list stands for, bytes of a text, and the comparison of two elements by them. It looks at no more than 64 bytes at once,
// and past those reads no further than it has to.
#![tactic(auto)]

ghost use Rattle.std.specs.Prelude.{◌≡◌, false, ◌+◌, ◌-◌, ◌≤◌, ltb, length, take, drop};
ghost use Rattle.ground.specs.Scan.{common_start};
ghost use Rattle.order.specs.Order.{by_number, next, name_order};
ghost use Rattle.keys.specs.Key.{past_mark, cut_to, key_at, below_by, decide, ended};

use std::cmp::Ordering;

// The most bytes of two names that are compared at once.
const FAR: usize = 64;

// The place where the bytes past the first mark begin.
fn begin(text: &[u8], mark: u8, place: usize) -> usize
    ensures { (result ≤ length text.now) × (drop result text.now ≡ past_mark mark (drop place text.now)) }
{
    if text.len() <= place {
        return text.len();
    }
    if mark == 0 {
        return place;
    }
    let at = scan::find_byte(text, place, mark);
    text.len().min(at + 1)
}

// The place where the bytes that begin at a place end.
fn end(text: &[u8], width: usize, from: usize) -> usize
    requires { from ≤ length text.now }
    ensures { (from ≤ result) × (result ≤ length text.now) × (take (result - from) (drop from text.now) ≡ cut_to width (drop from text.now)) }
{
    if width == 0 {
        return scan::find_nul(text, from);
    }
    from + width.min(text.len() - from)
}

// Keys that compare Equal so far: the shorter is below, and of one length the smaller element.
fn below_same(a: usize, b: usize, x: u32, y: u32) -> bool
    ensures { result ≡ decide (by_number a b) (ltb x y) }
{
    a < b || a == b && x < y
}

// The byte at a place of the bytes that begin at another, and one more: 0 where those have ended.
fn next_at(text: &[u8], width: usize, from: usize, i: usize) -> u16
    requires from_in_bounds { from ≤ length text.now }
    requires i_in_bounds { i ≤ length (cut_to width (drop from text.now)) }
    ensures { result ≡ next (drop i (cut_to width (drop from text.now))) false }
{
    if text.len() - from <= i {
        return 0;
    }
    let at = from + i;
    if width == 0 {
        if text[at] == 0 {
            return 0;
        }
        return text[at] as u16 + 1;
    }
    if width <= i {
        return 0;
    }
    text[at] as u16 + 1
}

// Two numbers of bytes compared, where 0 is a name's end: for a folder a slash.
fn by_next(p: u16, ptree: bool, q: u16, qtree: bool) -> Ordering
    ensures { result ≡ by_number (ended p ptree) (ended q qtree) }
{
    order::by_number(end_of(p, ptree), end_of(q, qtree))
}

// What a number of a byte stands for: 0 is a name's end, and for a folder a slash.
fn end_of(p: u16, tree: bool) -> u16
    ensures { result ≡ ended p tree }
{
    match (p, tree) {
        (0, true) => 48,
        _ => p,
    }
}

// So many bytes that two names share, told by words: at most FAR, as more may stand past the names; none where their first bytes differ already.
fn shared(text: &[u8], width: usize, a: usize, b: usize) -> usize
    requires { (a ≤ length text.now) × (b ≤ length text.now) }
    ensures agree { common_start (cut_to width (drop a text.now)) (cut_to width (drop b text.now))
        ≡ result + common_start (drop result (cut_to width (drop a text.now))) (drop result (cut_to width (drop b text.now))) }
    ensures left { result ≤ length (cut_to width (drop a text.now)) }
    ensures right { result ≤ length (cut_to width (drop b text.now)) }
{
    if ground::byte_at(text, a) != ground::byte_at(text, b) {
        return 0;
    }
    let far = ground::shorter(text.len() - a, FAR);
    let n = scan::common_start(&text[a..a + far], &text[b..]);
    if width == 0 {
        return scan::count_to(&text[a..a + n], 0);
    }
    n.min(width)
}

// Git's comparison of the names that begin at two places, which reads past what they are known to share no further than it has to.
fn names(text: &[u8], width: usize, a: usize, atree: bool, b: usize, btree: bool) -> Ordering
    requires { (a ≤ length text.now) × (b ≤ length text.now) }
    ensures { result ≡ name_order (cut_to width (drop a text.now)) atree (cut_to width (drop b text.now)) btree }
{
    // By hand: how long the names are is found on the way.
    let mut i = shared(text, width, a, b);
    loop {
        let p = next_at(text, width, a, i);
        let q = next_at(text, width, b, i);
        if p == 0 || p != q {
            return by_next(p, atree, q, btree);
        }
        i += 1;
    }
}

// Whether an element stands below another. An element is twice a place in the text, and one more for a folder; its bytes begin past
// the first `mark` from its place on (mark 0: at its place), and are `width` many (width 0: up to the next NUL).
pub fn below(text: &[u8], mark: u8, width: usize, x: u32, y: u32) -> bool
    ensures { result ≡ below_by (key_at text.now mark width) x y }
{
    let a = begin(text, mark, x as usize / 2);
    let b = begin(text, mark, y as usize / 2);
    let m = x as usize % 2;
    let n = y as usize % 2;
    match names(text, width, a, m == 1, b, n == 1) {
        Ordering::Less => true,
        Ordering::Greater => false,
        Ordering::Equal => below_same(
            end(text, width, a) - a + m,
            end(text, width, b) - b + n,
            x,
            y,
        ),
    }
}
