// Whether the objects of a bundle stand in turn, and whether their ids ascend (docs/FORMAT.md, "Bundles").
#![tactic(auto)]

ghost use Rattle.std.specs.Prelude.{◌≡◌, []};
ghost use Rattle.frame.specs.Frame.{frames, whole};
ghost use Rattle.twice.specs.Ids.{ids_in};
ghost use Rattle.framed.specs.Ids.{below, rises};

use frame::frame_at;
use order::name_order;

// Whether so many objects stand from a place on, and nothing is left over.
pub fn well_framed(s: &[u8], h: usize, count: usize, from: usize) -> bool
    ensures { result ≡ whole (frames h s.now count from) }
{
    let mut at = from;
    for _i in 0..count {
        match frame_at(s, h, at) {
            None => return false,
            Some(f) => at = f.end,
        }
    }
    at == s.len()
}

// Whether an id is below another.
fn is_below(x: &[u8], y: &[u8]) -> bool
    ensures { result ≡ below x.now y.now }
{
    name_order(x, false, y, false).is_lt()
}

// Whether the ids ascend: then none stands twice, and one pass has said so.
pub fn ascending(s: &[u8], h: usize, count: usize, from: usize) -> bool
    ensures { result ≡ rises [] (ids_in h s.now (frames h s.now count from)) }
{
    let mut a: usize = 0;
    let mut b: usize = 0;
    let mut at = from;
    for _i in 0..count {
        match frame_at(s, h, at) {
            None => return true,
            Some(f) => {
                let start = f.id;
                let end = start + h;
                if is_below(&s[a..b], &s[start..end]) {
                    a = start;
                    b = end;
                    at = f.end;
                } else {
                    return false;
                }
            }
        }
    }
    true
}
