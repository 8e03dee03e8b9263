// One step of the merge of two trees' entries in Git's order (docs/FORMAT.md, "Differences"): what is only left, only right, or in both.
#![tactic(auto)]

ghost use Rattle.std.specs.Prelude.{◌≡◌, ◌+◌, ◌≤◌, ◌<◌, length};
ghost use Rattle.entry.specs.Record.{folder_of};
ghost use Rattle.order.specs.Order.{name_order};
ghost use Rattle.merge.specs.Merge.{ahead_at, EntryWithin, name_in, no_side, side_of, change_of, left_change, right_change, both_of, step_at};

use entry::{Cursor, EntryRecord};
use entry_record::is_folder;
use order::name_order;
use scan::same_bytes;
use std::cmp::Ordering;

// What is still to be read of a tree: where its bytes begin and end in the bundle, the place in it of the next entry, and how many are left.
#[derive(Clone, Copy)]
pub struct Rest {
    pub start: usize,
    pub end: usize,
    pub at: usize,
    pub left: usize,
}

// One side of a change: a mode and an id's range in the bundle. Where nothing is there, all are 0.
#[derive(Clone, Copy)]
pub struct Side {
    pub mode: usize,
    pub id_start: usize,
    pub id_end: usize,
}

// An entry that differs: its name's range in the bundle, both sides, and whether its folders have to be opened.
#[derive(Clone, Copy)]
pub struct Change {
    pub name_start: usize,
    pub name_end: usize,
    pub left: Side,
    pub right: Side,
    pub deep: bool,
}

// A step: both trees are at their end, an entry is the same in both, or one differs.
#[derive(Clone, Copy)]
pub enum Step {
    Done,
    Same(Rest, Rest),
    Differs(Change, Rest, Rest),
}

// The next entry of a tree that lies inside the bundle.
fn next_entry(bundle: &[u8], h: usize, c: Rest) -> Option<(EntryRecord, Rest)>
    ensures { result ≡ ahead_at h bundle.now c }
{
    let left = c.left;
    let start = c.start;
    let end = c.end;
    if left == 0 || end < start || bundle.len() < end {
        return None;
    }
    let from = Cursor { at: c.at };
    match from.decode(&bundle[start..end], h) {
        Err(_) => None,
        Ok((e, next)) => {
            let name_start = start + e.name_start;
            let name_end = start + e.name_end;
            let id_start = start + e.id_start;
            let text_start = start + e.text_start;
            Some((
                EntryRecord {
                    mode: e.mode,
                    name_start,
                    name_end,
                    id_start,
                    text_start,
                },
                Rest {
                    start,
                    end,
                    at: next.at,
                    left: left - 1,
                },
            ))
        }
    }
}

// The side that an entry is on.
fn side_of(h: usize, e: EntryRecord) -> Side
    requires { e.id_start + h < 18446744073709551616 }
    ensures { result ≡ side_of h e }
{
    let id_end = e.id_start + h;
    Side {
        mode: e.mode,
        id_start: e.id_start,
        id_end,
    }
}

// The side where an entry is not.
fn no_side() -> Side
    ensures { result ≡ no_side }
{
    Side {
        mode: 0,
        id_start: 0,
        id_end: 0,
    }
}

// A change under the name of an entry.
fn change_of(e: EntryRecord, left: Side, right: Side, deep: bool) -> Change
    ensures { result ≡ change_of e left right deep }
{
    Change {
        name_start: e.name_start,
        name_end: e.name_end,
        left,
        right,
        deep,
    }
}

// An entry of both trees.
fn in_both(bundle: &[u8], h: usize, a: EntryRecord, b: EntryRecord, l: Rest, r: Rest) -> Step
    requires entry_within { EntryWithin h (length bundle.now) a }
    requires entry_within_2 { EntryWithin h (length bundle.now) b }
    ensures { result ≡ both_of h bundle.now a b l r }
{
    let left = side_of(h, a);
    let right = side_of(h, b);
    let i = left.id_start;
    let i_end = left.id_end;
    let j = right.id_start;
    let j_end = right.id_end;
    if same_bytes(&bundle[i..i_end], &bundle[j..j_end]) {
        if a.mode == b.mode {
            return Step::Same(l, r);
        }
        return Step::Differs(change_of(a, left, right, false), l, r);
    }
    Step::Differs(change_of(a, left, right, is_folder(a)), l, r)
}

// An entry that is only left.
fn only_left(h: usize, e: EntryRecord) -> Change
    requires { e.id_start + h < 18446744073709551616 }
    ensures { result ≡ left_change h e }
{
    change_of(e, side_of(h, e), no_side(), is_folder(e))
}

// An entry that is only right.
fn only_right(h: usize, e: EntryRecord) -> Change
    requires { e.id_start + h < 18446744073709551616 }
    ensures { result ≡ right_change h e }
{
    change_of(e, no_side(), side_of(h, e), is_folder(e))
}

// Git's order of two entries, by name and sort.
fn order_of(bundle: &[u8], a: EntryRecord, b: EntryRecord) -> Ordering
    requires name_start_bound { (a.name_start ≤ a.name_end) × (a.name_end ≤ length bundle.now) }
    requires name_start_bound_2 { (b.name_start ≤ b.name_end) × (b.name_end ≤ length bundle.now) }
    ensures { result ≡ name_order (name_in bundle.now a) (folder_of a) (name_in bundle.now b) (folder_of b) }
{
    let i = a.name_start;
    let i_end = a.name_end;
    let j = b.name_start;
    let j_end = b.name_end;
    name_order(
        &bundle[i..i_end],
        is_folder(a),
        &bundle[j..j_end],
        is_folder(b),
    )
}

// The next step, whatever the two rests name: one that does not lie inside the bundle is at its end.
pub fn merge_step(bundle: &[u8], h: usize, l: Rest, r: Rest) -> Step
    ensures { result ≡ step_at h bundle.now l r }
{
    let x = next_entry(bundle, h, l);
    let y = next_entry(bundle, h, r);
    match x {
        None => match y {
            None => Step::Done,
            Some((b, next)) => Step::Differs(only_right(h, b), l, next),
        },
        Some((a, next)) => match y {
            None => Step::Differs(only_left(h, a), next, r),
            Some((b, other)) => match order_of(bundle, a, b) {
                Ordering::Less => Step::Differs(only_left(h, a), next, r),
                Ordering::Equal => in_both(bundle, h, a, b, next, other),
                Ordering::Greater => Step::Differs(only_right(h, b), l, other),
            },
        },
    }
}
