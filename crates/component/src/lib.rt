// A path's components, and one component in a tree: the first entry of its name (docs/FORMAT.md, "Paths").
#![tactic(auto)]

ghost use Rattle.std.specs.Prelude.{◌≡◌, length};
ghost use Rattle.reading.specs.Listing.{plain};
ghost use Rattle.component.specs.Component.{pieces, is_path};
ghost use Rattle.component.specs.Named.{first_in};

use entry::{Cursor, EntryRecord};
use scan::{find_byte, same_bytes};

// The most components of a path.
pub const MOST_COMPONENTS: usize = 64;

// Whether no component is empty, and there are at most 64.
pub fn is_path(path: &[u8]) -> bool
    ensures { result ≡ is_path (pieces path.now) }
{
    let mut at: usize = 0;
    for _ in 0..MOST_COMPONENTS {
        let end = find_byte(path, at, b'/');
        if end == at {
            return false;
        }
        if end == path.len() {
            return true;
        }
        at = end + 1;
    }
    false
}

// The first entry of a name, of any kind, before any entry that cannot be read.
pub fn find_entry(tree: &[u8], h: usize, name: &[u8]) -> Option<EntryRecord>
    ensures { result ≡ first_in tree.now name.now (plain h (length tree.now) 0 tree.now) }
{
    let mut c = Cursor { at: 0 };
    while c.at < tree.len() {
        match c.decode(tree, h) {
            Err(_) => return None,
            Ok((e, next)) => {
                let start = e.name_start;
                let end = e.name_end;
                if same_bytes(&tree[start..end], name) {
                    return Some(e);
                }
                c = next;
            }
        }
    }
    None
}
