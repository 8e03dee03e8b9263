// Which call a case is, and what it is lent. A call is its number in the list: a name for each would say what the comment on its function says.
use crate::cases::{ANSWERS, BYTES, Case, NUMBERS, given};
use crate::commits::{commit_size, read_commit, rewrite, unfold, write_commit};
use crate::in_pieces::check_in_pieces;
use crate::lent::{BYTE, Left, NUMBER, room};
use crate::requests::{bundled, compare_trees, edited, follow_path, mend_tree, text_call};
use crate::trees::{
    among_structs, listed, mode_asked, mode_text, name_order, put_out, sized, sought, walk,
};
use crate::wide::wide;

// The calls that are lent nothing.
fn plain_call(call: u8, c: Case) -> [usize; ANSWERS] {
    match call {
        1 => mode_text(c),
        4 => name_order(c),
        8 | 10 => wide(&sought(call, c)),
        9 => among_structs(c),
        19 => wide(&commit_size(c)),
        22 | 23 => wide(&bundled(call, c)),
        31 => wide(&check_in_pieces(c)),
        _ => wide(&sized(call, c)),
    }
}

// Those that are lent bytes: the answers of four numbers, and all.
fn out_four(call: u8, c: Case, out: &mut [u8]) -> [usize; 4] {
    match call {
        18 => unfold(c, out),
        20 => write_commit(c, out),
        21 => rewrite(c, out),
        25 | 26 => edited(call, c, out),
        28 | 29 => text_call(call, c, out),
        _ => put_out(call, c, out),
    }
}

fn out_call(call: u8, c: Case, out: &mut [u8]) -> [usize; ANSWERS] {
    match call {
        2 => mode_asked(c, out),
        24 => wide(&follow_path(c, out)),
        _ => wide(&out_four(call, c, out)),
    }
}

// Those that are lent a list, and bytes.
fn list_call(call: u8, c: Case, out: &mut [u8], p: &mut [usize]) -> [usize; ANSWERS] {
    match call {
        7 => walk(c, p),
        27 => wide(&mend_tree(c, out, p)),
        30 => wide(&compare_trees(c, out, p)),
        _ => wide(&listed(call, c, p)),
    }
}

fn answer(c: Case, out: &mut [u8], p: &mut [usize], q: &mut [usize]) -> [usize; ANSWERS] {
    let call = given(c.s, 0);
    match call {
        17 => read_commit(c, p, q),
        5..=7 | 11 | 27 | 30 => list_call(call, c, out, p),
        2 | 13..=16 | 18 | 20 | 21 | 24..=26 | 28 | 29 => out_call(call, c, out),
        _ => plain_call(call, c),
    }
}

// A call, on lent bytes and lists of their length. Arrays: what is lent stands for C's arrays, and no case is lent more.
pub fn called(c: Case) -> Left {
    let mut out = [BYTE; BYTES];
    let mut p = [NUMBER; NUMBERS];
    let mut q = [NUMBER; NUMBERS];
    let bytes = room(c, 0, BYTES);
    let first = room(c, 1, NUMBERS);
    let second = room(c, 2, NUMBERS);
    let told = answer(c, &mut out[0..bytes], &mut p[0..first], &mut q[0..second]);
    Left { told, out, p, q }
}
