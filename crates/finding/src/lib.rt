// Where the object of an id stands in a bundle: the first, by a walk along it (docs/FORMAT.md, "Bundles").
#![tactic(auto)]

ghost use Rattle.std.specs.Prelude.{◌≡◌};
ghost use Rattle.frame.specs.Frame.{frames};
ghost use Rattle.frame.specs.Place.{first_of, place_of};

use frame::{Frame, frame_at, read_header};
use scan::same_bytes;

// The first object of an id among so many from a place on.
fn find_from(s: &[u8], h: usize, count: usize, from: usize, id: &[u8]) -> Option<Frame>
    ensures { result ≡ first_of h s.now id.now (frames h s.now count from) }
{
    let mut at = from;
    for _i in 0..count {
        match frame_at(s, h, at) {
            None => return None,
            Some(f) => {
                let start = f.id;
                let end = start + h;
                if same_bytes(&s[start..end], id) {
                    return Some(f);
                }
                at = f.end;
            }
        }
    }
    None
}

// Where the object of an id stands: the first, before any fault of the framing. Every run of bytes is taken.
pub fn find_object(s: &[u8], id: &[u8]) -> Option<Frame>
    ensures { result ≡ place_of s.now id.now }
{
    match read_header(s) {
        Some(k) => find_from(s, k.h, k.count, k.from, id),
        None => None,
    }
}
