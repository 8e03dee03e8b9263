// An index of a bundle's objects: the places of their ids, sorted by the ids in a list of the caller's.
#![tactic(auto)]

ghost use Rattle.std.specs.Prelude.{◌≡◌, ◌++◌, ◌≤◌, length, drop};
ghost use Rattle.std.proofs.lemmas.List.Edits.{sets};
ghost use Rattle.ground.specs.Verdict.{most_bytes};
ghost use Rattle.frame.specs.Frame.{frames};
ghost use Rattle.indexing.specs.Indexing.{elements_in, index_of};

use frame::{Header, frame_at};
use ground::MOST_BYTES;
use sorting::sort_front;

// Twice the place of each object's id, in the bundle's order: how many there are.
fn places(s: &[u8], h: usize, count: usize, from: usize, list: &mut [u32]) -> usize
    requires count_in_bounds { count ≤ length list.old }
    requires s_len_bound { length s.now ≤ most_bytes }
    ensures value { result ≡ length (elements_in (frames h s.now count from)) }
    ensures list_after { list.new ≡ sets list.old 0 (elements_in (frames h s.now count from)) }
{
    let mut at = from;
    for n in 0..count {
        match frame_at(s, h, at) {
            None => return n,
            Some(f) => {
                list[n] = (f.id * 2) as u32;
                at = f.end;
            }
        }
    }
    count
}

// Makes the index at the front of a list, and says how long it is. A bundle over its bound has none, nor has one with more objects than the
// list has room for: the bundle is then walked for each object.
pub fn make_index(s: &[u8], k: Header, list: &mut [u32]) -> usize
    ensures count { result ≡ length (index_of s.now k (length list.old)) }
    ensures list { list.new ≡ index_of s.now k (length list.old) ++ drop (length (index_of s.now k (length list.old))) list.old }
{
    if MOST_BYTES < s.len() || list.len() < k.count {
        return 0;
    }
    let n = places(s, k.h, k.count, k.from, list);
    sort_front(s, 0, k.h, list, n);
    n
}
