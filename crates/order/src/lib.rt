// Git's comparison of the names in a tree (docs/FORMAT.md, "Order"); in the Rust `name_order` of src/tree/mod.rs.
#![tactic(auto)]

ghost use Rattle.std.specs.Prelude.{◌≡◌, drop};
ghost use Rattle.order.specs.Order.{name_order, by_number, next, order_number};

use std::cmp::Ordering;

// The number that stands for an order: -1, 0 or 1.
pub fn order_number(o: Ordering) -> i8
    ensures { result ≡ order_number o }
{
    match o {
        Ordering::Less => -1,
        Ordering::Equal => 0,
        Ordering::Greater => 1,
    }
}

// Two positions compared as numbers.
pub fn by_number(x: u16, y: u16) -> Ordering
    ensures { result ≡ by_number x y }
{
    if x < y {
        return Ordering::Less;
    }
    if y < x {
        return Ordering::Greater;
    }
    Ordering::Equal
}

// What stands at a position of a name: 0 where it has ended, 48 where it was a tree's, else 1 and the byte.
fn next_at(s: &[u8], at: usize, tree: bool) -> u16
    ensures { result ≡ next (drop at s.now) tree }
{
    if at < s.len() {
        return s[at] as u16 + 1;
    }
    if tree {
        return 48;
    }
    0
}

// Two names by what stands at one position of them.
pub fn by_next(a: &[u8], atree: bool, b: &[u8], btree: bool, i: usize) -> Ordering
    ensures { result ≡ by_number (next (drop i a.now) atree) (next (drop i b.now) btree) }
{
    let x = next_at(a, i, atree);
    let y = next_at(b, i, btree);
    by_number(x, y)
}

// Names of any length and with any bytes; each says whether it is a tree's.
pub fn name_order(a: &[u8], atree: bool, b: &[u8], btree: bool) -> Ordering
    ensures { result ≡ name_order a.now atree b.now btree }
{
    let i = scan::common_start(a, b);
    if a.len() <= i || b.len() <= i {
        return by_next(a, atree, b, btree, i);
    }
    if a[i] < b[i] {
        Ordering::Less
    } else {
        Ordering::Greater
    }
}
