// Two trees of a bundle compared (docs/FORMAT.md, "Differences"): one walk, taken twice, first to measure and then to store.
#![tactic(auto)]

ghost use Rattle.std.specs.Prelude.{◌≡◌, List, ℕ, ◌+◌, ◌≤◌, ◌<◌, length};
ghost use Rattle.ground.specs.Verdict.{most_bytes, stored};
ghost use Rattle.merge.specs.Merge.{Within, ChangeWithin};
ghost use Rattle.walk.specs.Walk.{put, compare_entries, compare_folders, levels};
ghost use Rattle.walk.specs.Lent.{paths_of, numbers_of, items_in, fitted};
ghost use Rattle.walk.specs.Code.{entries_from, folders_in, walk_in, answer_of, inside, Added, item_of, join_length, Held, Did, Small, Short};

use frame::Header;
use ground::{
    Answer, BOUND, DONE, FEW_RECORDS, FINE, MOST_BYTES, MOST_RECORDS, SHORT_OUTPUT, Verdict,
};
use item::{ITEM, put_item, put_path};
use merge::{Change, Rest, Step, merge_step};
use opening::open_both;

// The levels of folders that are opened, from depth 0 to depth 32.
pub const LEVELS: usize = 33;

// How far a walk came: its verdict, its items, and the bytes that their paths take.
#[derive(Clone, Copy)]
pub struct Mark {
    pub verdict: Verdict,
    pub count: usize,
    pub used: usize,
}

// Those levels, as the specification counts them.
fn levels() -> usize
    ensures { result ≡ levels }
{
    LEVELS
}

// The mark before the first item.
const NONE: Mark = Mark {
    verdict: FINE,
    count: 0,
    used: 0,
};

// The length of a path from its folder's and its name's.
fn joined(pl: usize, name: usize) -> usize
    requires { pl + name < 9223372036854775808 }
    ensures { result ≡ join_length pl name }
{
    if pl == 0 {
        return name;
    }
    pl + 1 + name
}

// One item more, below the folder whose path stands at ps; 2 past the bound.
fn add(
    bundle: &[u8],
    items: &mut [usize],
    paths: &mut [u8],
    m: Mark,
    ps: usize,
    pl: usize,
    c: Change,
) -> Mark
    requires bundle_len_bound { length bundle.now ≤ most_bytes }
    requires pl_bound { ps + pl ≤ m.used }
    requires pl_bound_2 { pl ≤ 135291469824 }
    requires small { Small m }
    requires change_within { ChangeWithin (length bundle.now) c }
    ensures by_index { (prefix : List ℕ) → length prefix ≡ pl → Did m (Held prefix ps paths.old) items.old paths.old (put m.count (item_of bundle.now prefix c)) result items.new paths.new }
    ensures added { Added m pl result }
{
    let n = m.count;
    let used = m.used;
    if MOST_RECORDS <= n {
        return Mark {
            verdict: Verdict {
                number: BOUND,
                ..FINE
            },
            count: n,
            used,
        };
    }
    let start = c.name_start;
    let stop = c.name_end;
    let end = used + joined(pl, stop - start);
    put_item(items, n, used, end, c);
    put_path(paths, used, ps, pl, &bundle[start..stop]);
    let count = n + 1;
    Mark {
        verdict: FINE,
        count,
        used: end,
    }
}

// Two folders by their ids, compared by their entries.
#[cycle(compare_entries_compare_folders_compare_inside)]
fn compare_folders(
    bundle: &[u8],
    k: Header,
    a: &[u8],
    b: &[u8],
    depth: usize,
    items: &mut [usize],
    paths: &mut [u8],
    m: Mark,
    ps: usize,
    pl: usize,
    index: &[u32],
) -> Mark
    requires bundle_len_bound { length bundle.now ≤ most_bytes }
    requires pl_bound { ps + pl ≤ m.used }
    requires short { Short pl depth }
    requires small { Small m }
    ensures by_index { (prefix : List ℕ) → length prefix ≡ pl → Did m (Held prefix ps paths.old) items.old paths.old (compare_folders (folders_in k bundle.now index.now) depth prefix a.now b.now m.count) result items.new paths.new }
    ensures small_2 { Small result }
{
    match open_both(bundle, k, a, b, depth, index) {
        Err(v) => Mark { verdict: v, ..m },
        Ok((l, r)) => compare_entries(bundle, k, l, r, depth - 1, items, paths, m, ps, pl, index),
    }
}

// What differs inside an entry: where it is deep, the folders of its two ids are compared below its path, which stands at a place.
#[cycle(compare_entries_compare_folders_compare_inside)]
fn compare_inside(
    bundle: &[u8],
    k: Header,
    c: Change,
    depth: usize,
    items: &mut [usize],
    paths: &mut [u8],
    m: Mark,
    at: usize,
    size: usize,
    index: &[u32],
) -> Mark
    requires bundle_len_bound { length bundle.now ≤ most_bytes }
    requires size_bound { at + size ≤ m.used }
    requires short { Short size depth }
    requires small { Small m }
    requires change_within { ChangeWithin (length bundle.now) c }
    ensures by_index { (prefix : List ℕ) → length prefix ≡ size → Did m (Held prefix at paths.old) items.old paths.old (inside (compare_folders (folders_in k bundle.now index.now) depth) prefix bundle.now c m.count) result items.new paths.new }
    ensures small_2 { Small result }
{
    if c.deep {
        let x = c.left;
        let y = c.right;
        let i = x.id_start;
        let i_end = x.id_end;
        let j = y.id_start;
        let j_end = y.id_end;
        return compare_folders(
            bundle,
            k,
            &bundle[i..i_end],
            &bundle[j..j_end],
            depth,
            items,
            paths,
            m,
            at,
            size,
            index,
        );
    }
    Mark { verdict: FINE, ..m }
}

// The entries of two folders, merged: an item for each that differs, and after it what differs inside.
#[cycle(compare_entries_compare_folders_compare_inside)]
fn compare_entries(
    bundle: &[u8],
    k: Header,
    mut l: Rest,
    mut r: Rest,
    depth: usize,
    items: &mut [usize],
    paths: &mut [u8],
    mut m: Mark,
    ps: usize,
    pl: usize,
    index: &[u32],
) -> Mark
    requires bundle_len_bound { length bundle.now ≤ most_bytes }
    requires pl_bound { ps + pl ≤ m.used }
    requires short { Short pl (depth + 1) }
    requires small { Small m }
    requires within { Within bundle.now l }
    requires within_2 { Within bundle.now r }
    ensures by_index { (prefix : List ℕ) → length prefix ≡ pl → Did m (Held prefix ps paths.old) items.old paths.old (compare_entries (compare_folders (folders_in k bundle.now index.now) depth) prefix (entries_from k.h bundle.now l) m.count (entries_from k.h bundle.now r)) result items.new paths.new }
    ensures small_2 { Small result }
{
    loop {
        match merge_step(bundle, k.h, l, r) {
            Step::Done => {
                return Mark { verdict: FINE, ..m };
            }
            Step::Same(next, past) => {
                l = next;
                r = past;
                continue;
            }
            Step::Differs(c, next, past) => {
                let p = add(bundle, items, paths, m, ps, pl, c);
                if p.verdict.number != DONE {
                    return p;
                }
                let at = m.used;
                let size = p.used - at;
                let w = compare_inside(bundle, k, c, depth, items, paths, p, at, size, index);
                if w.verdict.number != DONE {
                    return w;
                }
                l = next;
                r = past;
                m = w;
            }
        }
    }
}

// The answer from the mark of a walk, with room for so many items and so many bytes: its refusal, 4, 8.
fn by_room(w: Mark, room: usize, bytes: usize) -> Answer
    ensures { result ≡ answer_of w room bytes }
{
    let v = w.verdict;
    let count = w.count;
    if v.number != DONE {
        return Answer {
            verdict: v,
            count: 0,
        };
    }
    if room < count {
        return Answer {
            verdict: Verdict {
                number: FEW_RECORDS,
                place: count,
                ..FINE
            },
            count: 0,
        };
    }
    if bytes < w.used {
        return Answer {
            verdict: Verdict {
                number: SHORT_OUTPUT,
                place: w.used,
                ..FINE
            },
            count: 0,
        };
    }
    Answer {
        verdict: FINE,
        count,
    }
}

// What a walk with nothing lent says, with room for so many items and so many bytes: 2 over the bound, then as above.
fn measured(
    bundle: &[u8],
    k: Header,
    left: &[u8],
    right: &[u8],
    index: &[u32],
    room: usize,
    bytes: usize,
) -> Answer
    ensures { result ≡ fitted room bytes (walk_in k bundle.now index.now left.now right.now) }
{
    if MOST_BYTES < bundle.len() {
        return Answer {
            verdict: Verdict {
                number: BOUND,
                ..FINE
            },
            count: 0,
        };
    }
    let mut items = [0usize; 0];
    let mut paths = [0u8; 0];
    let w = compare_folders(
        bundle,
        k,
        left,
        right,
        levels(),
        &mut items,
        &mut paths,
        NONE,
        0,
        0,
        index,
    );
    by_room(w, room, bytes)
}

// What differs between the trees of two ids, whatever the index is: 2 over the bound, the walk with nothing lent and its refusal, 4, 8, and the
// walk that stores.
pub fn walk_trees(
    bundle: &[u8],
    k: Header,
    left: &[u8],
    right: &[u8],
    items: &mut [usize],
    paths: &mut [u8],
    index: &[u32],
) -> Answer
    ensures answer { result ≡ fitted (items_in (length items.old)) (length paths.old) (walk_in k bundle.now index.now left.now right.now) }
    ensures items { items.new ≡ stored result.verdict (numbers_of 0 (walk_in k bundle.now index.now left.now right.now).items) items.old }
    ensures paths { paths.new ≡ stored result.verdict (paths_of (walk_in k bundle.now index.now left.now right.now).items) paths.old }
{
    let a = measured(
        bundle,
        k,
        left,
        right,
        index,
        items.len() / ITEM,
        paths.len(),
    );
    if a.verdict.number != DONE {
        return a;
    }
    compare_folders(
        bundle,
        k,
        left,
        right,
        levels(),
        items,
        paths,
        NONE,
        0,
        0,
        index,
    );
    a
}
