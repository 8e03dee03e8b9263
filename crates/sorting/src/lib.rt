// A list of elements sorted in place by the bytes that they stand for: heap sort, n log n, no second list.
#![tactic(auto)]

ghost use Rattle.std.specs.Prelude.{◌≡◌, true, ◌++◌, ◌+◌, ◌/◌, ◌≤◌, ◌<◌, length, take, drop};
ghost use Rattle.keys.specs.Key.{key_at, below_by};
ghost use Rattle.sorting.specs.Sort.{Ascends, sort_by};
ghost use Rattle.sorting.specs.Heap.{Heap, Moved, Larger};

use keys::below;

// The larger of the one or two children of i.
fn larger(text: &[u8], mark: u8, width: usize, list: &[u32], i: usize, n: usize) -> usize
    requires n_in_bounds { n ≤ length list.now }
    requires i_bound { i < n / 2 }
    ensures { Larger (below_by (key_at text.now mark width)) list.now i n result }
{
    let c = i * 2 + 1;
    let d = i * 2 + 2;
    if n <= d {
        return c;
    }
    if below(text, mark, width, list[c], list[d]) {
        return d;
    }
    c
}

// Moves the element at a place down, past children that it is below.
fn sift(text: &[u8], mark: u8, width: usize, list: &mut [u32], from: usize, n: usize)
    requires n_in_bounds { n ≤ length list.old }
    requires heap { Heap (below_by (key_at text.now mark width)) list.old (from + 1) n }
    ensures moved { Moved (below_by (key_at text.now mark width)) list.old list.new n }
    ensures heap_2 { Heap (below_by (key_at text.now mark width)) list.new from n }
{
    let mut i = from;
    while i < n / 2 {
        let c = larger(text, mark, width, list, i, n);
        if below(text, mark, width, list[i], list[c]) {
            list.swap(i, c);
            i = c;
        } else {
            return;
        }
    }
}

// Makes a heap of the list.
fn heapify(text: &[u8], mark: u8, width: usize, list: &mut [u32])
    ensures moved { Moved (below_by (key_at text.now mark width)) list.old list.new (length list.old) }
    ensures heap { Heap (below_by (key_at text.now mark width)) list.new 0 (length list.old) }
{
    let n = list.len();
    for k in (0..n / 2).rev() {
        sift(text, mark, width, list, k, n);
    }
}

// Takes the largest of the heap to its end, again and again.
fn settle(text: &[u8], mark: u8, width: usize, list: &mut [u32])
    requires { Heap (below_by (key_at text.now mark width)) list.old 0 (length list.old) }
    ensures { list.new ≡ sort_by (below_by (key_at text.now mark width)) list.old }
{
    for m in (1..list.len()).rev() {
        list.swap(0, m);
        sift(text, mark, width, list, 0, m);
    }
}

// Whether no element is below the one before it: then there is nothing to sort.
fn in_order(text: &[u8], mark: u8, width: usize, list: &[u32]) -> bool
    ensures { result ≡ true → Ascends (below_by (key_at text.now mark width)) list.now }
{
    list.is_sorted_by(|x, y| !below(text, mark, width, *y, *x))
}

// Sorts a list of elements: each is twice a place in the text, and one more for a folder. An element's bytes begin past the
// first `mark` from its place on (mark 0: at its place), and are `width` many (width 0: up to the next NUL).
pub fn sort(text: &[u8], mark: u8, width: usize, list: &mut [u32])
    ensures { list.new ≡ sort_by (below_by (key_at text.now mark width)) list.old }
{
    if in_order(text, mark, width, list) {
        return;
    }
    heapify(text, mark, width, list);
    settle(text, mark, width, list);
}

// Sorts the first n elements of a list, all of them where it has no more.
pub fn sort_front(text: &[u8], mark: u8, width: usize, list: &mut [u32], n: usize)
    ensures { list.new ≡ sort_by (below_by (key_at text.now mark width)) (take n list.old) ++ drop n list.old }
{
    if list.len() <= n {
        sort(text, mark, width, list);
        return;
    }
    sort(text, mark, width, &mut list[..n]);
}
