// What differs between two trees of a bundle (docs/FORMAT.md, "Differences"): an index of its objects, and the walk with it.
#![tactic(auto)]

ghost use Rattle.std.specs.Prelude.{◌≡◌, [], ◌≤◌, length};
ghost use Rattle.ground.specs.Verdict.{most_bytes, most_records, stored};
ghost use Rattle.seeking.specs.Index.{IsIndex};
ghost use Rattle.walk.specs.Lent.{paths_of, numbers_of, items_in, fitted};
ghost use Rattle.difference.specs.Whole.{differences, roots_of, answer, items_after, paths_after};

use bundle::open_bundle;
use frame::Header;
use ground::{Answer, FINE, MOST_RECORDS, NOT_FRAMED, Verdict, longer, sizes};
use indexing::make_index;
use item::ITEM;
use walk::walk_trees;

// With an index of the bundle in a list.
fn compare_with(
    bundle: &[u8],
    k: Header,
    left: &[u8],
    right: &[u8],
    items: &mut [usize],
    paths: &mut [u8],
    list: &mut [u32],
) -> Answer
    requires bundle_len_bound { length bundle.now ≤ most_bytes }
    requires index { IsIndex bundle.now k [] }
    ensures value { result ≡ fitted (items_in (length items.old)) (length paths.old) (differences k bundle.now left.now right.now) }
    ensures after { items.new ≡ stored result.verdict (numbers_of 0 (differences k bundle.now left.now right.now).items) items.old }
    ensures paths_after { paths.new ≡ stored result.verdict (paths_of (differences k bundle.now left.now right.now).items) paths.old }
{
    let n = make_index(bundle, k, list);
    walk_trees(bundle, k, left, right, items, paths, &list[..n])
}

// The same with a list of its own that has room for N objects. N is a parameter, so no proof computes so long a list.
fn compare_own<const N: usize>(
    bundle: &[u8],
    k: Header,
    left: &[u8],
    right: &[u8],
    items: &mut [usize],
    paths: &mut [u8],
) -> Answer
    requires bundle_len_bound { length bundle.now ≤ most_bytes }
    requires index { IsIndex bundle.now k [] }
    requires room { N ≤ most_records }
    ensures value { result ≡ fitted (items_in (length items.old)) (length paths.old) (differences k bundle.now left.now right.now) }
    ensures after { items.new ≡ stored result.verdict (numbers_of 0 (differences k bundle.now left.now right.now).items) items.old }
    ensures paths_after { paths.new ≡ stored result.verdict (paths_of (differences k bundle.now left.now right.now).items) paths.old }
{
    let mut list = [0u32; N];
    compare_with(bundle, k, left, right, items, paths, &mut list)
}

// With room for an index of all objects: four mebibytes of the stack. The call of itself is never reached. It is there because the compiler
// lays no function that calls itself into its callers: only such a bundle takes this one's stack.
fn compare_large(
    bundle: &[u8],
    k: Header,
    left: &[u8],
    right: &[u8],
    items: &mut [usize],
    paths: &mut [u8],
) -> Answer
    requires bundle_len_bound { length bundle.now ≤ most_bytes }
    requires index { IsIndex bundle.now k [] }
    requires count_le_most_records { k.count ≤ most_records }
    ensures value { result ≡ fitted (items_in (length items.old)) (length paths.old) (differences k bundle.now left.now right.now) }
    ensures after { items.new ≡ stored result.verdict (numbers_of 0 (differences k bundle.now left.now right.now).items) items.old }
    ensures paths_after { paths.new ≡ stored result.verdict (paths_of (differences k bundle.now left.now right.now).items) paths.old }
{
    if MOST_RECORDS < k.count {
        return compare_large(bundle, k, left, right, items, paths);
    }
    compare_own::<1048576>(bundle, k, left, right, items, paths)
}

// With an index: where there are more than 1,024 objects it takes four mebibytes of the stack.
fn compare_in(
    bundle: &[u8],
    k: Header,
    left: &[u8],
    right: &[u8],
    items: &mut [usize],
    paths: &mut [u8],
) -> Answer
    requires bundle_len_bound { length bundle.now ≤ most_bytes }
    requires index { IsIndex bundle.now k [] }
    requires count_le_most_records { k.count ≤ most_records }
    ensures value { result ≡ fitted (items_in (length items.old)) (length paths.old) (differences k bundle.now left.now right.now) }
    ensures after { items.new ≡ stored result.verdict (numbers_of 0 (differences k bundle.now left.now right.now).items) items.old }
    ensures paths_after { paths.new ≡ stored result.verdict (paths_of (differences k bundle.now left.now right.now).items) paths.old }
{
    if k.count <= 1024 {
        return compare_own::<1024>(bundle, k, left, right, items, paths);
    }
    compare_large(bundle, k, left, right, items, paths)
}

// Opens a bundle for two root ids: 24, 25.
fn open_roots(bundle: &[u8], left: &[u8], right: &[u8]) -> Result<Header, Verdict>
    ensures { result ≡ roots_of bundle.now (length left.now) (length right.now) }
{
    if left.len() != right.len() {
        return Err(Verdict {
            number: NOT_FRAMED,
            ..FINE
        });
    }
    open_bundle(bundle, left.len())
}

// Every entry that is only in the left tree, only in the right one, or in both with another mode or id: items of six numbers, their paths in
// the lent bytes. Refusals 2, 24, 25; as the walk meets them 27, 28, the strict reader's and 2; then 4 and 8. A refusal stores nothing.
pub fn compare_trees(
    bundle: &[u8],
    left: &[u8],
    right: &[u8],
    items: &mut [usize],
    paths: &mut [u8],
) -> Answer
    ensures answer { result ≡ answer bundle.now left.now right.now (length paths.old) (items_in (length items.old)) }
    ensures items { items.new ≡ items_after bundle.now left.now right.now (length paths.old) items.old }
    ensures paths { paths.new ≡ paths_after bundle.now left.now right.now paths.old (items_in (length items.old)) }
{
    let room = items.len() / ITEM;
    let most = longer(
        longer(bundle.len(), paths.len()),
        longer(left.len(), right.len()),
    );
    match sizes(most, room) {
        Err(v) => Answer {
            verdict: v,
            count: 0,
        },
        Ok(()) => match open_roots(bundle, left, right) {
            Err(w) => Answer {
                verdict: w,
                count: 0,
            },
            Ok(k) => compare_in(bundle, k, left, right, items, paths),
        },
    }
}
