// A tree of a bundle by its id, and two of them, read strictly (docs/FORMAT.md, "Differences").
#![tactic(auto)]

ghost use Rattle.std.specs.Prelude.{◌≡◌, Some, ◌≤◌, length};
ghost use Rattle.opening.specs.Opening.{open_placed, open_in, open_level, open_both};

use frame::{Frame, Header, TREE};
use ground::{FINE, NO_TREE, TOO_DEEP, Verdict};
use merge::Rest;
use seeking::seek_object;
use strict::strict_count;

// The entries of an object, read strictly whole by the bundle's rule set: 28 where it is no tree.
fn open_object(bundle: &[u8], k: Header, f: Frame) -> Result<Rest, Verdict>
    requires { (f.start ≤ f.end) × (f.end ≤ length bundle.now) }
    ensures { result ≡ open_placed k bundle.now (Some f) }
{
    if f.kind != TREE {
        return Err(Verdict {
            number: NO_TREE,
            ..FINE
        });
    }
    let start = f.start;
    let end = f.end;
    match strict_count(&bundle[start..end], k.h, k.rules) {
        Err(v) => Err(v),
        Ok(n) => Ok(Rest {
            start,
            end,
            at: 0,
            left: n,
        }),
    }
}

// The entries of the tree of an id: 28 where there is none. An empty id stands for nothing.
pub fn open_tree(bundle: &[u8], k: Header, id: &[u8], index: &[u32]) -> Result<Rest, Verdict>
    ensures { result ≡ open_in k bundle.now id.now index.now }
{
    if id.len() == 0 {
        return Ok(Rest {
            start: 0,
            end: 0,
            at: 0,
            left: 0,
        });
    }
    match seek_object(bundle, k.h, index, id) {
        None => Err(Verdict {
            number: NO_TREE,
            ..FINE
        }),
        Some(f) => open_object(bundle, k, f),
    }
}

// The tree of an id with so many levels to go: 27 with none, before an object is looked for.
fn open_level(
    bundle: &[u8],
    k: Header,
    id: &[u8],
    depth: usize,
    index: &[u32],
) -> Result<Rest, Verdict>
    ensures { result ≡ open_level k bundle.now id.now depth index.now }
{
    if depth == 0 {
        return Err(Verdict {
            number: TOO_DEEP,
            ..FINE
        });
    }
    open_tree(bundle, k, id, index)
}

// The trees of two ids with so many levels to go: the left is opened, then the right.
pub fn open_both(
    bundle: &[u8],
    k: Header,
    left: &[u8],
    right: &[u8],
    depth: usize,
    index: &[u32],
) -> Result<(Rest, Rest), Verdict>
    ensures { result ≡ open_both k bundle.now left.now right.now depth index.now }
{
    match open_level(bundle, k, left, depth, index) {
        Err(v) => Err(v),
        Ok(l) => match open_level(bundle, k, right, depth, index) {
            Err(w) => Err(w),
            Ok(r) => Ok((l, r)),
        },
    }
}
