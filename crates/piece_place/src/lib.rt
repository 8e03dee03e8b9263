// A name over the one before it, which is held (docs/FORMAT.md, "A check in pieces").
#![tactic(auto)]

ghost use Rattle.std.specs.Prelude.{◌≡◌, take};
ghost use Rattle.doubles.specs.Stack.{place_of, marks_of};
ghost use Rattle.piece_place.specs.Place.{held_after};

use arriving::Last;
use doubles::{Misplaced, open_entry};
use ground::shorter;
use order::by_next;
use output::put;
use scan::common_start;
use std::cmp::Ordering;

// A name after the one before, which it takes the place of unless it stands below.
pub fn place(
    held: &mut [u8],
    ends: &mut [u32],
    last: Last,
    ended: usize,
    name: &[u8],
    folder: bool,
) -> Result<usize, Misplaced>
    ensures placed { result ≡ place_of ends.old ended (take last.size held.old) last.folder name.now folder }
    ensures ends { ends.new
        ≡ marks_of ends.old ended (take last.size held.old) last.folder name.now folder }
    ensures held { held.new ≡ held_after result held.old name.now }
{
    let size = shorter(last.size, held.len());
    let shared = common_start(&held[..size], name);
    match by_next(&held[..size], last.folder, name, folder, shared) {
        Ordering::Less => {
            let r = open_entry(ends, ended, shared, size, last.folder, name.len(), folder);
            put(held, 0, name);
            r
        }
        Ordering::Equal => Err(Misplaced::NotAfter),
        Ordering::Greater => Err(Misplaced::NotAfter),
    }
}
