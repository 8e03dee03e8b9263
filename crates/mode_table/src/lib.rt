// The table of the five written modes and their kinds (docs/FORMAT.md, "Modes"; it follows src/tree/mod.rs).
#![tactic(auto)]

ghost use Rattle.std.specs.Prelude.{◌≡◌, ◌<◌};
ghost use Rattle.mode_table.specs.Kind.{is_executable, is_file_or_link};
ghost use Rattle.mode_table.specs.Table.{place_of, row_at, written_of, written_mode};

use mode_text::ShortText;
use scan::same_bytes;

// What an entry is.
#[derive(Clone, Copy)]
pub enum EntryKind {
    Tree,
    Blob,
    BlobExecutable,
    Link,
    Commit,
}

// A row of the table: a mode, its kind, its octal text and its kind's word.
#[derive(Clone, Copy)]
pub struct Written {
    pub mode: u16,
    pub kind: EntryKind,
    pub text: ShortText,
    pub word: ShortText,
}

// The five written modes.
const WRITTEN: [Written; 5] = [
    Written {
        mode: 0o40000,
        kind: EntryKind::Tree,
        text: ShortText {
            bytes: *b"40000\0",
            len: 5,
        },
        word: ShortText {
            bytes: *b"tree\0\0",
            len: 4,
        },
    },
    Written {
        mode: 0o100644,
        kind: EntryKind::Blob,
        text: ShortText {
            bytes: *b"100644",
            len: 6,
        },
        word: ShortText {
            bytes: *b"blob\0\0",
            len: 4,
        },
    },
    Written {
        mode: 0o100755,
        kind: EntryKind::BlobExecutable,
        text: ShortText {
            bytes: *b"100755",
            len: 6,
        },
        word: ShortText {
            bytes: *b"exe\0\0\0",
            len: 3,
        },
    },
    Written {
        mode: 0o120000,
        kind: EntryKind::Link,
        text: ShortText {
            bytes: *b"120000",
            len: 6,
        },
        word: ShortText {
            bytes: *b"link\0\0",
            len: 4,
        },
    },
    Written {
        mode: 0o160000,
        kind: EntryKind::Commit,
        text: ShortText {
            bytes: *b"160000",
            len: 6,
        },
        word: ShortText {
            bytes: *b"commit",
            len: 6,
        },
    },
];

// A row by its place: the one reader of the table.
fn row_at(i: usize) -> Written
    requires { i < 5 }
    ensures { result ≡ row_at i }
{
    WRITTEN[i]
}

// Where a kind's row stands.
fn place(k: EntryKind) -> usize
    ensures { result ≡ place_of k }
{
    match k {
        EntryKind::Tree => 0,
        EntryKind::Blob => 1,
        EntryKind::BlobExecutable => 2,
        EntryKind::Link => 3,
        EntryKind::Commit => 4,
    }
}

// A kind's row.
pub fn written_of(k: EntryKind) -> Written
    ensures { result ≡ written_of k }
{
    row_at(place(k))
}

// The mode whose row has exactly this text.
pub fn written_mode(t: &[u8]) -> Option<u16>
    ensures { result ≡ written_mode t.now }
{
    let mut i: usize = 0;
    while i < 5 {
        let row = row_at(i);
        let text = row.text;
        let bytes = text.bytes;
        let n = text.len;
        if same_bytes(t, &bytes[..n]) {
            return Some(row.mode);
        }
        i += 1;
    }
    None
}

impl EntryKind {
    // Of the five kinds, only the executable file.
    pub fn is_executable(self) -> bool
        ensures { result ≡ is_executable self }
    {
        matches!(self, EntryKind::BlobExecutable)
    }

    // Of the five kinds, both files and the link.
    pub fn is_file_or_link(self) -> bool
        ensures { result ≡ is_file_or_link self }
    {
        matches!(
            self,
            EntryKind::Blob | EntryKind::BlobExecutable | EntryKind::Link
        )
    }
}
