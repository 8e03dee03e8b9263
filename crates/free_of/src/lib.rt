// Whether a byte does not stand among others, by blocks (docs/FORMAT.md, "Strict reading").
#![tactic(auto)]

ghost use Rattle.std.specs.Prelude.{◌≡◌, ◌+◌, ◌≤◌, length};
ghost use Rattle.ground.specs.Scan.{free_of};

use scan::lacks;

// Whether none of thirty-two bytes or more is x. The last block ends with the bytes, and may overlap the one before.
fn is_free_far(s: &[u8], x: u8) -> bool
    requires { 32 ≤ length s.now }
    ensures { result ≡ free_of x s.now }
{
    // By place: the last block ends with the bytes.
    let last = s.len() - 32;
    let mut at = 0;
    while at < last {
        if !lacks(&s[at..at + 32], x) {
            return false;
        }
        at += 32;
    }
    lacks(&s[last..], x)
}

// Whether none of k to twice k bytes is x: the first k and the last k, which may overlap.
fn is_free_near(s: &[u8], k: usize, x: u8) -> bool
    requires { (k ≤ length s.now) × (length s.now ≤ k + k) }
    ensures { result ≡ free_of x s.now }
{
    lacks(&s[..k], x) & lacks(&s[s.len() - k..], x)
}

// Whether no byte is x.
pub fn is_free(s: &[u8], x: u8) -> bool
    ensures { result ≡ free_of x s.now }
{
    match s.len() {
        0..4 => lacks(s, x),
        4..8 => is_free_near(s, 4, x),
        8..16 => is_free_near(s, 8, x),
        16..32 => is_free_near(s, 16, x),
        32.. => is_free_far(s, x),
    }
}
