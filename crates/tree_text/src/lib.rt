// One record of the text that `git ls-tree -z` prints and `git mktree -z` takes: what stands before its id (docs/FORMAT.md, "Text").
#![tactic(auto)]

ghost use Rattle.std.specs.Prelude.{◌≡◌, ◌+◌, ◌%◌};
ghost use Rattle.tree_text.specs.Text.{front_of};

use mode::EntryMode;

// At most fourteen bytes: the first len are the text, the others are 0. A buffer with its length, since the text is made without a heap.
#[derive(Clone, Copy)]
pub struct Front {
    pub bytes: [u8; 14],
    pub len: usize,
}

// The last octal digit of a number, as text.
fn digit(n: usize) -> u8
    ensures { result ≡ 48 + n % 8 }
{
    b'0' + (n % 8) as u8
}

// What stands before the id of an entry with this mode: six octal digits, the word of its sort, a space after each.
pub fn front_of(mode: usize) -> Front
    ensures { result ≡ front_of mode }
{
    let m = EntryMode {
        internal: (mode % 65536) as u16,
    };
    let a = digit(mode / 0o100000);
    let b = digit(mode / 0o10000);
    let c = digit(mode / 0o1000);
    let d = digit(mode / 0o100);
    let e = digit(mode / 0o10);
    let f = digit(mode);
    if m.is_tree() {
        return Front {
            bytes: [a, b, c, d, e, f, b' ', b't', b'r', b'e', b'e', b' ', 0, 0],
            len: 12,
        };
    }
    if m.is_commit() {
        return Front {
            bytes: [
                a, b, c, d, e, f, b' ', b'c', b'o', b'm', b'm', b'i', b't', b' ',
            ],
            len: 14,
        };
    }
    Front {
        bytes: [a, b, c, d, e, f, b' ', b'b', b'l', b'o', b'b', b' ', 0, 0],
        len: 12,
    }
}
