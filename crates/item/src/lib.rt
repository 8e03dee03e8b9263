// An item of a difference as it is stored (docs/FORMAT.md, "Differences"): six numbers in one list, its path in another.
// A folder's item comes before its inner items, so the front of an inner path is copied from where the folder's path was stored.
#![tactic(auto)]

ghost use Rattle.std.specs.Prelude.{◌≡◌, ◌&&◌, ◌+◌, leb, ltb};
ghost use Rattle.item.specs.Put.{put_numbers, put_path};

use merge::Change;

// The numbers of an item, as they lie in a flat list: where its path starts and ends, both modes, and where both ids start.
pub const ITEM: usize = 6;

// Whether so many bytes from ps on end before m, where a list of so many bytes has room for them and for a slash.
fn has_room(ps: usize, pl: usize, m: usize, len: usize) -> bool
    ensures { result ≡ (leb (ps + pl) m && ltb (m + pl) len) }
{
    ps <= m && pl <= m - ps && m < len && pl < len - m
}

// Stores a path as far as there is room: its folder's, which stands at ps, a slash, and the name.
pub fn put_path(paths: &mut [u8], m: usize, ps: usize, pl: usize, name: &[u8])
    ensures { paths.new ≡ put_path paths.old m ps pl name.now }
{
    if pl == 0 {
        output::put(paths, m, name);
        return;
    }
    if has_room(ps, pl, m, paths.len()) {
        paths.copy_within(ps..ps + pl, m);
        let slash = m + pl;
        paths[slash] = b'/';
        output::put(paths, slash + 1, name);
    }
}

// Stores the six numbers of item n where they have room.
pub fn put_item(items: &mut [usize], n: usize, start: usize, end: usize, c: Change)
    ensures { items.new ≡ put_numbers items.old n start end c }
{
    if items.len() / ITEM <= n {
        return;
    }
    let i = ITEM * n;
    let left = c.left;
    let right = c.right;
    items[i] = start;
    items[i + 1] = end;
    items[i + 2] = left.mode;
    items[i + 3] = right.mode;
    items[i + 4] = left.id_start;
    items[i + 5] = right.id_start;
}
