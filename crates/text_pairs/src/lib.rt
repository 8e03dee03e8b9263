// What is said after all records of a text (docs/FORMAT.md, "Text"), by their elements in Git's order: 7, and 17 by a folder whose name a
// file has. That file is sought where it would stand, so the elements are sorted once, and not at all where they are in order.
#![tactic(auto)]

ghost use Rattle.std.specs.Prelude.{◌≡◌, ◌+◌, ◌<◌, ◌%◌, length, get_or};
ghost use Rattle.ground.specs.Basics.{pick};
ghost use Rattle.keys.specs.Key.{key_at, below_by};
ghost use Rattle.sorting.specs.Sort.{Ascends, sort_by};
ghost use Rattle.text_repeats.specs.Least.{same_record};
ghost use Rattle.text_pairs.specs.Pairs.{count_below, same_at, same_before, beside_of, least_with, least_pair, judged_by};

use ground::Verdict;
use keys::below;
use sorting::sort;
use text_repeats::{NONE, least_repeat, repeat_verdict, same_record};

// How many elements of a sorted list stand below one.
fn search(text: &[u8], list: &[u32], x: u32) -> usize
    requires { Ascends (below_by (key_at text.now 9 0)) list.now }
    ensures { result ≡ count_below (below_by (key_at text.now 9 0)) list.now x }
{
    list.partition_point(|y| below(text, b'\t', 0, *y, x))
}

// The same for the file of the name of the folder at a place: as many as stand before the folder, where the last of them is below.
fn file_place(text: &[u8], list: &[u32], j: usize, x: u32) -> usize
    requires ascends { Ascends (below_by (key_at text.now 9 0)) list.now }
    requires j_in_bounds { (j < length list.now) × (get_or list.now j 0 ≡ x + 1) × (x % 2 ≡ 0) }
    ensures { result ≡ count_below (below_by (key_at text.now 9 0)) list.now x }
{
    if j == 0 {
        return 0;
    }
    let y = list[j - 1];
    if below(text, b'\t', 0, y, x) {
        return j;
    }
    search(text, list, x)
}

// Whether the element at a place has the name and sort of another.
fn same_at(text: &[u8], list: &[u32], i: usize, x: u32) -> bool
    ensures { result ≡ same_at (same_record text.now) list.now i x }
{
    i < list.len() && same_record(text, list[i], x)
}

// Whether the element before a place has them.
fn same_before(text: &[u8], list: &[u32], i: usize, x: u32) -> bool
    ensures { result ≡ same_before (same_record text.now) list.now i x }
{
    0 < i && same_at(text, list, i - 1, x)
}

// An element, where it has the name and sort of another; or NONE.
fn if_same(text: &[u8], y: u32, x: u32) -> usize
    ensures { result ≡ pick (same_record text.now y x) y 4294967296 }
{
    if same_record(text, y, x) {
        y as usize
    } else {
        NONE
    }
}

// The larger of an element and the one beside its place that has its name and sort, or NONE.
fn beside(text: &[u8], list: &[u32], k: usize, x: u32) -> usize
    ensures { result ≡ beside_of (same_record text.now) list.now k x }
{
    if same_before(text, list, k, x) {
        return x as usize;
    }
    if list.len() <= k {
        return NONE;
    }
    if_same(text, list[k], x)
}

// The smaller of a number and the later of the folder at a place and the file of its name, if there is one.
fn pair_here(text: &[u8], list: &[u32], j: usize, least: usize) -> usize
    requires ascends { Ascends (below_by (key_at text.now 9 0)) list.now }
    requires j_in_bounds { j < length list.now }
    ensures { result ≡ least_with (below_by (key_at text.now 9 0)) (same_record text.now) list.now (get_or list.now j 0) least }
{
    let z = list[j];
    if z % 2 == 0 {
        return least;
    }
    let x = z - 1;
    let k = file_place(text, list, j, x);
    beside(text, list, k, x).min(least)
}

// The least element that is the later of a folder and a file of one name, as if neither were a folder; or NONE.
fn least_pair(text: &[u8], list: &[u32]) -> usize
    requires { Ascends (below_by (key_at text.now 9 0)) list.now }
    ensures { result ≡ least_pair (below_by (key_at text.now 9 0)) (same_record text.now) list.now list.now 4294967296 }
{
    let mut least = NONE;
    for j in 0..list.len() {
        least = pair_here(text, list, j, least);
    }
    least
}

// Sorts a list of elements in Git's order, and says what its neighbours and pairs say: 7, 17 or done.
pub fn judge_list(text: &[u8], list: &mut [u32]) -> Verdict
    ensures verdict { result ≡ judged_by text.now (sort_by (below_by (key_at text.now 9 0)) list.old) }
    ensures list { list.new ≡ sort_by (below_by (key_at text.now 9 0)) list.old }
{
    sort(text, b'\t', 0, list);
    let order = least_repeat(text, list);
    if order < NONE {
        return repeat_verdict(order, NONE);
    }
    let name = least_pair(text, list);
    repeat_verdict(order, name)
}
