// The check in pieces, as trees.rt has the other calls on trees.
use crate::cases::{Case, H, THIRD};

// The pieces have so many bytes; 0 is as many as there are.
fn feed(
    object: &[u8],
    size: usize,
    held: &mut [u8; 4096],
    ends: &mut [u32; 4097],
    marks: &mut [usize; 18],
    first: &mut [u8; 8],
) {
    let size = if size == 0 { usize::MAX } else { size };
    for piece in object.chunks(size) {
        border_pieces::check_piece(held, ends, marks, first, piece);
    }
}

// 31: an object, in pieces of so many bytes.
pub fn check_in_pieces(c: Case) -> [usize; 4] {
    let mut held = [0u8; 4096];
    let mut ends = [0u32; 4097];
    let mut marks = [0usize; 18];
    let mut first = [0u8; 8];
    let mut t = [0usize; 4];
    border_check::check_start(c.number(H), c.rules(), &mut marks, &mut first);
    feed(
        c.a(),
        c.number(THIRD),
        &mut held,
        &mut ends,
        &mut marks,
        &mut first,
    );
    border_check::check_end(&marks, &first, &mut t);
    t
}
