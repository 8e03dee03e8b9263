// One component of a path: the object of an id must be a tree, and have an entry of the name (docs/FORMAT.md, "Paths").
#![tactic(auto)]

ghost use Rattle.std.specs.Prelude.{◌≡◌};
ghost use Rattle.path_step.specs.Spot.{spot_in};

use component::find_entry;
use finding::find_object;
use frame::TREE;

// The first entry of a name in the tree of an id, for ids of h bytes.
pub fn step_to(s: &[u8], h: usize, id: &[u8], name: &[u8]) -> Option<(usize, usize)>
    ensures { result ≡ spot_in h s.now id.now name.now }
{
    let f = find_object(s, id)?;
    if f.kind != TREE {
        return None;
    }
    let e = find_entry(&s[f.start..f.end], h, name)?;
    Some((e.mode, f.start + e.id_start))
}
