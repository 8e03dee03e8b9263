// The object of an id in a bundle (docs/FORMAT.md, "Differences"): sought by halving in an index of the objects' places.
// What the index proposes is looked at, and where it is not the object of the id, the bundle is walked: no index is believed.
#![tactic(auto)]

ghost use Rattle.std.specs.Prelude.{false, ◌≡◌, ◌/◌};
ghost use Rattle.order.specs.Order.{name_order};
ghost use Rattle.seeking.specs.Index.{id_at, place_in, seek_in};

use finding::find_object;
use frame::{Frame, frame_at};
use ground::shorter;
use order::name_order;
use scan::same_bytes;
use std::cmp::Ordering;

// The place that an element stands for.
fn place_of(x: u32) -> usize
    ensures { result ≡ x / 2 }
{
    x as usize / 2
}

// How the id at an element's place stands to an id.
fn order_at(bundle: &[u8], h: usize, x: u32, id: &[u8]) -> Ordering
    ensures { result ≡ name_order (id_at h bundle.now x) false id.now false }
{
    let all = bundle.len();
    let a = shorter(place_of(x), all);
    let b = a + shorter(h, all - a);
    name_order(&bundle[a..b], false, id, false)
}

// Where in an index an id should stand.
fn place_in(bundle: &[u8], h: usize, index: &[u32], id: &[u8]) -> usize
    ensures { result ≡ place_in h bundle.now index.now id.now }
{
    let mut low: usize = 0;
    let mut high = index.len();
    while low < high {
        let middle = low + (high - low) / 2;
        match order_at(bundle, h, index[middle], id) {
            Ordering::Less => low = middle + 1,
            Ordering::Equal => return middle,
            Ordering::Greater => high = middle,
        }
    }
    low
}

// The object of an id, where an index proposes it or else where a walk along the bundle meets it.
pub fn seek_object(bundle: &[u8], h: usize, index: &[u32], id: &[u8]) -> Option<Frame>
    ensures { result ≡ seek_in h bundle.now index.now id.now }
{
    let i = place_in(bundle, h, index, id);
    if index.len() <= i {
        return find_object(bundle, id);
    }
    let at = place_of(index[i]);
    match frame_at(bundle, h, at) {
        None => find_object(bundle, id),
        Some(f) => {
            let start = f.id;
            let end = start + h;
            if same_bytes(&bundle[start..end], id) {
                return Some(f);
            }
            find_object(bundle, id)
        }
    }
}
