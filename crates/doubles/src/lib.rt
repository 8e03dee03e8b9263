// Two entries of one name in an ascending listing, found in one pass (docs/FORMAT.md, "Strict reading").
#![tactic(auto)]

ghost use Rattle.std.specs.Prelude.{◌≡◌, ◌≤◌, min, length};
ghost use Rattle.doubles.specs.Stack.{kept_of, open_at, marks_at, is_double, open_of, place_of, marks_of};

use ground::shorter;
use order::by_next;
use scan::common_start;
use std::cmp::Ordering;

// Why an entry is refused where it stands: it is not after the one before, or its name was there already.
#[derive(Clone, Copy)]
pub enum Misplaced {
    NotAfter,
    Double,
}

// How many of the first n marks stay, where those above p go.
fn kept(marks: &[u32], n: usize, p: usize) -> usize
    requires { n ≤ length marks.now }
    ensures { result ≡ kept_of marks.now p n }
{
    for k in (0..n).rev() {
        if marks[k] as usize <= p {
            return k + 1;
        }
    }
    0
}

// The marks at the next name, which shares p bytes with a name of len bytes, a folder's or not.
fn open_next(marks: &mut [u32], n: usize, p: usize, len: usize, was: bool) -> usize
    requires { n ≤ length marks.old }
    ensures count { result ≡ open_at marks.old n p len was }
    ensures marks { marks.new ≡ marks_at marks.old n p len was }
{
    if was || p < len {
        return kept(marks, n, p);
    }
    if marks.len() <= n {
        return n;
    }
    marks[n] = (len % 4294967296) as u32;
    n + 1
}

// Whether the longest of the first k marks is a folder's length.
fn is_double(marks: &[u32], k: usize, len: usize, folder: bool) -> bool
    requires { k ≤ length marks.now }
    ensures { result ≡ is_double marks.now k len folder }
{
    if !folder || k == 0 {
        return false;
    }
    marks[k - 1] as usize == len
}

// An entry of size bytes that stands after one of len bytes, of which it shares p. The marks keep the names that are open.
pub fn open_entry(
    marks: &mut [u32],
    n: usize,
    p: usize,
    len: usize,
    was: bool,
    size: usize,
    folder: bool,
) -> Result<usize, Misplaced>
    ensures placed { result ≡ open_of marks.old n p len was size folder }
    ensures marks { marks.new ≡ marks_at marks.old (min n (length marks.old)) p len was }
{
    let m = shorter(n, marks.len());
    let k = open_next(marks, m, p, len, was);
    if is_double(marks, k, size, folder) {
        return Err(Misplaced::Double);
    }
    Ok(k)
}

// An entry after one whose name is at hand, by one walk along the two names.
pub fn place_entry(
    marks: &mut [u32],
    n: usize,
    last: &[u8],
    was: bool,
    name: &[u8],
    folder: bool,
) -> Result<usize, Misplaced>
    ensures placed { result ≡ place_of marks.old n last.now was name.now folder }
    ensures marks { marks.new ≡ marks_of marks.old n last.now was name.now folder }
{
    let p = common_start(last, name);
    match by_next(last, was, name, folder, p) {
        Ordering::Less => open_entry(marks, n, p, last.len(), was, name.len(), folder),
        Ordering::Equal => Err(Misplaced::NotAfter),
        Ordering::Greater => Err(Misplaced::NotAfter),
    }
}
