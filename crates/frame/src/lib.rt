// A bundle's framing: its header, and one object at a place (docs/FORMAT.md, "Bundles").
#![tactic(auto)]

ghost use Rattle.std.specs.Prelude.{◌≡◌, ◌+◌, ◌≤◌, ◌<◌, length, take, drop};
ghost use Rattle.frame.specs.Frame.{little, fields_at, by_rules, head_of, frame_at};

use ground::MOST_RECORDS;
use scan::same_bytes;

// What the kind byte of a tree is.
pub const TREE: usize = 2;

// What a bundle's header says: the length of ids, the rule set, how many objects there are, and where the first begins.
#[derive(Clone, Copy)]
pub struct Header {
    pub h: usize,
    pub rules: u16,
    pub count: usize,
    pub from: usize,
}

// An object by its kind and by positions in the bundle: of its id, of its first byte, and past its last. The kind is the byte that stands there, and
// no enum: `border_bundle` lends it to C, and `bundle_grammar/specs` speaks of the byte.
#[derive(Clone, Copy)]
pub struct Frame {
    pub kind: usize,
    pub id: usize,
    pub start: usize,
    pub end: usize,
}

// The number that two bytes say, the lower first.
fn two_at(s: &[u8], i: usize) -> usize
    requires { i + 2 ≤ length s.now }
    ensures made { result ≡ little (take 2 (drop i s.now)) }
    ensures small { result < 65536 }
{
    let a = s[i] as usize;
    let b = s[i + 1] as usize;
    a + b * 256
}

// The number that four bytes say, the lowest first.
fn four_at(s: &[u8], i: usize) -> usize
    requires { i + 4 ≤ length s.now }
    ensures made { result ≡ little (take 4 (drop i s.now)) }
    ensures small { result < 4294967296 }
{
    let low = two_at(s, i);
    let high = two_at(s, i + 2);
    low + high * 65536
}

// The header's last fields, from a place on: H and the number of objects.
fn fields_at(s: &[u8], rules: u16, at: usize) -> Option<Header>
    requires { at + 5 ≤ length s.now }
    ensures { result ≡ fields_at rules at s.now }
{
    let h = s[at] as usize;
    let count = four_at(s, at + 1);
    let from = at + 5;
    if MOST_RECORDS < count {
        return None;
    }
    if (h == 20) | (h == 32) {
        return Some(Header {
            h,
            rules,
            count,
            from,
        });
    }
    None
}

// The header of version 2, past the version: its rule set, and the last fields.
fn ruled(s: &[u8]) -> Option<Header>
    ensures { result ≡ by_rules (little (take 2 (drop 5 s.now))) s.now }
{
    if s.len() < 12 {
        return None;
    }
    let rules = two_at(s, 5);
    if rules == 1 {
        return fields_at(s, 1, 7);
    }
    if rules == 2 {
        return fields_at(s, 2, 7);
    }
    None
}

// What a bundle begins with: version 1, which means rule set 2, or version 2, which carries its rule set.
pub fn read_header(s: &[u8]) -> Option<Header>
    ensures { result ≡ head_of s.now }
{
    if s.len() < 10 {
        return None;
    }
    if same_bytes(&s[..3], b"GOB") {
        let version = two_at(s, 3);
        if version == 1 {
            return fields_at(s, 2, 5);
        }
        if version == 2 {
            return ruled(s);
        }
    }
    None
}

// The object at a place with room for its id, its kind and its length.
fn frame_in(s: &[u8], h: usize, at: usize) -> Option<Frame>
    requires { at + h + 5 ≤ length s.now }
    ensures { result ≡ frame_at h at (drop at s.now) }
{
    let mark = at + h;
    let kind = s[mark] as usize;
    if kind < 1 || 4 < kind {
        return None;
    }
    let size = four_at(s, mark + 1);
    let start = mark + 5;
    if s.len() - start < size {
        return None;
    }
    let end = start + size;
    Some(Frame {
        kind,
        id: at,
        start,
        end,
    })
}

// The object at a place: id, kind, length, bytes.
pub fn frame_at(s: &[u8], h: usize, at: usize) -> Option<Frame>
    ensures { result ≡ frame_at h at (drop at s.now) }
{
    if s.len() < at {
        return None;
    }
    if s.len() - at < h {
        return None;
    }
    if s.len() - at - h < 5 {
        return None;
    }
    frame_in(s, h, at)
}
