// The calls on bundles and paths, and those that make one tree object of another, as trees.rt has the others on trees.
use crate::cases::{B, C, Case, H, THIRD};
use output::put;

// 22: a bundle, checked whole; 23: an object of it, by its id.
pub fn bundled(call: u8, c: Case) -> [usize; 6] {
    let mut t = [0usize; 6];
    if call == 22 {
        border_bundle::check_bundle(c.a(), &mut t);
    } else {
        border_bundle::bundle_object(c.a(), c.bytes(B), &mut t);
    }
    t
}

// 24: a path, followed from a root id.
pub fn follow_path(c: Case, out: &mut [u8]) -> [usize; 5] {
    let mut t = [0usize; 5];
    let mut id = [0u8; 32];
    border_path::follow_path(c.a(), c.bytes(B), c.bytes(C), &mut t, &mut id);
    put(out, 0, &id);
    t
}

// 25: a name put into a tree with its mode and id; 26: a name removed from one.
pub fn edited(call: u8, c: Case, out: &mut [u8]) -> [usize; 4] {
    let tree = c.a();
    let name = c.bytes(B);
    let h = c.number(H);
    let rules = c.rules();
    let mut t = [0usize; 4];
    if call == 25 {
        border_edit::put_in_tree(
            tree,
            h,
            rules,
            c.number(THIRD),
            name,
            c.bytes(C),
            out,
            &mut t,
        );
    } else {
        border_edit::remove_from_tree(tree, h, rules, name, out, &mut t);
    }
    t
}

// 28: a tree as text; 29: a tree from its text.
pub fn text_call(call: u8, c: Case, out: &mut [u8]) -> [usize; 4] {
    let object = c.a();
    let h = c.number(H);
    let rules = c.rules();
    let mut t = [0usize; 4];
    if call == 28 {
        border_text::export_tree(object, h, rules, out, &mut t);
    } else {
        border_text::import_tree(object, h, rules, out, &mut t);
    }
    t
}

// 27: a tree, mended.
pub fn mend_tree(c: Case, out: &mut [u8], p: &mut [usize]) -> [usize; 5] {
    let mut t = [0usize; 5];
    border_mend::mend_tree(c.a(), c.number(H), p, out, &mut t);
    t
}

// 30: two trees of a bundle, compared.
pub fn compare_trees(c: Case, out: &mut [u8], p: &mut [usize]) -> [usize; 4] {
    let mut t = [0usize; 4];
    border_difference::compare_trees(c.a(), c.bytes(B), c.bytes(C), p, out, &mut t);
    t
}
