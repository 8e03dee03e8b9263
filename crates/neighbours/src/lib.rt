// Whether two neighbours in an index of a bundle name the same id: where it is sorted, then an id stands twice.
#![tactic(auto)]

ghost use Rattle.std.specs.Prelude.{◌≡◌, ◌/◌, take, drop};
ghost use Rattle.ground.specs.Scan.{same_bytes};
ghost use Rattle.sorting.specs.Repeats.{touches};
ghost use Rattle.neighbours.specs.Sorted.{same_short};

use ground::shorter;
use scan::same_bytes;

// Whether two elements name the same id.
fn same_ids(s: &[u8], h: usize, x: u32, y: u32) -> bool
    ensures { result ≡ same_bytes (take h (drop (x / 2) s.now)) (take h (drop (y / 2) s.now)) }
{
    let all = s.len();
    let a = shorter(x as usize / 2, all);
    let c = shorter(y as usize / 2, all);
    let b = a + shorter(h, all - a);
    let d = c + shorter(h, all - c);
    same_bytes(&s[a..b], &s[c..d])
}

// Whether two neighbours among the first n elements name the same id.
pub fn neighbours(s: &[u8], h: usize, list: &[u32], n: usize) -> bool
    ensures { result ≡ touches (same_short s.now h) (take n list.now) }
{
    let most = shorter(n, list.len());
    for i in 1..most {
        if same_ids(s, h, list[i - 1], list[i]) {
            return true;
        }
    }
    false
}
