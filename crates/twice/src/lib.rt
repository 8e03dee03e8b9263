// Whether an id stands twice in a bundle, its ids in any order: an index of it is made, and neighbours in the index are compared.
#![tactic(auto)]

ghost use Rattle.std.specs.Prelude.{◌≡◌, ◌≤◌, length};
ghost use Rattle.ground.specs.Verdict.{most_bytes, most_records};
ghost use Rattle.frame.specs.Frame.{frames_by};
ghost use Rattle.twice.specs.Ids.{ids_in, repeats, id_twice};

use frame::{Header, read_header};
use ground::{MOST_BYTES, MOST_RECORDS};
use indexing::make_index;
use neighbours::neighbours;

// Whether an id stands twice, by the neighbours among the sorted ids.
fn twice_with(s: &[u8], k: Header, list: &mut [u32]) -> bool
    requires fact { k.h ≡ 0 → ⊥ }
    requires count_in_bounds { k.count ≤ length list.old }
    requires s_len_bound { length s.now ≤ most_bytes }
    ensures { result ≡ repeats (ids_in k.h s.now (frames_by s.now k)) }
{
    let n = make_index(s, k, list);
    neighbours(s, k.h, list, n)
}

// With room for N.
fn twice_among<const N: usize>(s: &[u8], k: Header) -> bool
    requires fact { k.h ≡ 0 → ⊥ }
    requires count_bound { k.count ≤ N }
    requires small { N ≤ most_records }
    requires s_len_bound { length s.now ≤ most_bytes }
    ensures { result ≡ repeats (ids_in k.h s.now (frames_by s.now k)) }
{
    let mut list = [0u32; N];
    twice_with(s, k, &mut list)
}

// With room for all: four mebibytes of a stack of its own, which only such a bundle takes.
#[inline(never)]
fn twice_large(s: &[u8], k: Header) -> bool
    requires fact { k.h ≡ 0 → ⊥ }
    requires count_le_most_records { k.count ≤ most_records }
    requires s_len_bound { length s.now ≤ most_bytes }
    ensures { result ≡ repeats (ids_in k.h s.now (frames_by s.now k)) }
{
    twice_among::<MOST_RECORDS>(s, k)
}

// Whether an id stands twice in a bundle within the bound, before any fault of its framing. With more than 1,024 objects it takes
// four mebibytes of the stack.
pub fn id_twice(s: &[u8]) -> bool
    ensures { result ≡ id_twice s.now }
{
    if MOST_BYTES < s.len() {
        return false;
    }
    match read_header(s) {
        None => false,
        Some(k) => {
            if k.count <= 1024 {
                return twice_among::<1024>(s, k);
            }
            twice_large(s, k)
        }
    }
}
