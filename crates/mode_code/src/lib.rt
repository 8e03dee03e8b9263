// The mode at the front of an entry as one number: sixteen times the mode, and how many bytes its text takes with the space
// (docs/FORMAT.md, "Modes").
#![tactic(auto)]

ghost use Rattle.std.specs.Prelude.{◌≡◌, ◌+◌, ◌<◌, ◌≤◌, length};
ghost use Rattle.mode_code.specs.Code.{code_at, quick_at};
ghost use Rattle.mode_code.specs.Quad.{quad_at, six_of};

use mode::EntryMode;

// The codes of the five written modes.
const TREE: usize = 0o40000 * 16 + 6;

const FILE: usize = 0o100644 * 16 + 7;

const EXECUTABLE: usize = 0o100755 * 16 + 7;

const LINK: usize = 0o120000 * 16 + 7;

const COMMIT: usize = 0o160000 * 16 + 7;

// The code of the mode at a place: 0 where none can be read.
pub fn code_at(s: &[u8], at: usize) -> usize
    ensures { result ≡ code_at s.now at }
{
    match EntryMode::extract_at(s, at) {
        Some((m, rest)) => {
            let n = rest - at;
            m.internal as usize * 16 + n
        }
        None => 0,
    }
}

// The code of one of the five written modes at a place, told by four bytes at a time: 0 where none of them stands there,
// and where fewer than seven bytes are left.
pub fn quick_code(s: &[u8], at: usize) -> usize
    ensures { result ≡ quick_at s.now at }
{
    if s.len() < at {
        return 0;
    }
    if s.len() - at < 7 {
        return 0;
    }
    let a = quad(s, at);
    // "4000" and "000 "
    if a == 0x30303034 {
        let d = quad(s, at + 2);
        if d == 0x20303030 {
            return TREE;
        }
        return 0;
    }
    let b = quad(s, at + 3);
    six_code(a, b)
}

// The code of a text of six digits and a space, by its first four bytes and its last four: 0 where it is none of the four written ones.
fn six_code(a: u32, b: u32) -> usize
    ensures { result ≡ six_of a b }
{
    // "1006" and "644 "
    if (a == 0x36303031) & (b == 0x20343436) {
        return FILE;
    }
    // "1007" and "755 "
    if (a == 0x37303031) & (b == 0x20353537) {
        return EXECUTABLE;
    }
    // "1200" or "1600", and "000 "
    if (a == 0x30303231) & (b == 0x20303030) {
        return LINK;
    }
    if (a == 0x30303631) & (b == 0x20303030) {
        return COMMIT;
    }
    0
}

// The four bytes from a place on as one number, the first lowest.
fn quad(s: &[u8], i: usize) -> u32
    requires { i + 4 ≤ length s.now }
    ensures { result ≡ quad_at s.now i }
{
    let a = wide(s[i]);
    let b = wide(s[i + 1]);
    let c = wide(s[i + 2]);
    let d = wide(s[i + 3]);
    a + b * 256 + c * 65536 + d * 16777216
}

// A byte as a number of 32 bits.
fn wide(x: u8) -> u32
    ensures same { result ≡ x }
    ensures small { result < 256 }
{
    x as u32
}
