// The calls on commits, as trees.rt has those on trees.
use crate::cases::{ANSWERS, Case, GIVEN, H, NUMBERS, SECOND, X, Y, given, piece};
use std::array;

// 17: a commit, read.
pub fn read_commit(c: Case, p: &mut [usize], q: &mut [usize]) -> [usize; ANSWERS] {
    let mut t = [0usize; ANSWERS];
    border_commit::read_commit(c.a(), c.number(H), p, q, &mut t);
    t
}

// So many numbers of a list, from a place on.
fn part<const N: usize>(k: &[usize], from: usize) -> [usize; N] {
    array::from_fn(|i| given(k, from.wrapping_add(i)))
}

// 18: a header's value, unfolded.
pub fn unfold(c: Case, out: &mut [u8]) -> [usize; 4] {
    let mut t = [0usize; 4];
    border_commit::unfold_value(c.a(), &part(c.list(GIVEN), H), out, &mut t);
    t
}

// 19: a commit's size, from its parts.
pub fn commit_size(c: Case) -> [usize; 4] {
    let mut t = [0usize; 4];
    let parts = part(c.list(GIVEN), SECOND);
    border_commit_write::commit_size(c.a(), c.number(H), &parts, c.list(X), c.list(Y), &mut t);
    t
}

// 20: its bytes.
pub fn write_commit(c: Case, out: &mut [u8]) -> [usize; 4] {
    let mut t = [0usize; 4];
    let parts = part(c.list(GIVEN), SECOND);
    border_commit_write::write_commit(
        c.a(),
        c.number(H),
        &parts,
        c.list(X),
        c.list(Y),
        out,
        &mut t,
    );
    t
}

// A commit, read into lists that are long enough.
fn read_whole(
    a: &[u8],
    h: usize,
    p: &mut [usize; NUMBERS],
    q: &mut [usize; NUMBERS],
) -> [usize; ANSWERS] {
    let mut t = [0usize; ANSWERS];
    border_commit::read_commit(a, h, p, q, &mut t);
    t
}

// The bytes of a commit that was read: its parts are the last ten of what was told.
fn write_read(
    told: [usize; ANSWERS],
    a: &[u8],
    h: usize,
    p: &[usize; NUMBERS],
    q: &[usize; NUMBERS],
    out: &mut [u8],
) -> [usize; 4] {
    let mut t = [0usize; 4];
    let parents = piece(p, 0, told[4]);
    let headers = piece(q, 0, told[5] % 206 * 5);
    border_commit_write::write_commit(a, h, &part(&told, 6), parents, headers, out, &mut t);
    t
}

// 21: a commit, read and written again as it was read.
pub fn rewrite(c: Case, out: &mut [u8]) -> [usize; 4] {
    let mut p = [0usize; NUMBERS];
    let mut q = [0usize; NUMBERS];
    let told = read_whole(c.a(), c.number(H), &mut p, &mut q);
    write_read(told, c.a(), c.number(H), &p, &q, out)
}
