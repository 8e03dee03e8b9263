// The mode of a tree entry: 16 bits, asked what they stand for, made from a text or a number, and written again
// (docs/FORMAT.md, "Modes"; it follows src/tree/mod.rs).
#![tactic(auto)]

ghost use Rattle.std.specs.Prelude.{◌≡◌, not, eqb};
ghost use Rattle.mode_text.specs.Write.{mode_text};
ghost use Rattle.mode_table.specs.Kind.{is_executable, is_file_or_link};
ghost use Rattle.mode.specs.Mode.{value_of, sort_of, kind_of, word_of, is_tree, from_number};
ghost use Rattle.mode.specs.Read.{read_mode_at, mode_alone};

use ground::{BROKEN_ENTRY, FINE, NO_MODE, NO_MODE_OR_KIND, Verdict, sizes};
use mode_table::{EntryKind, written_of};
use mode_text::{ShortText, read_at, text_of};

// The 16 bits. 16384 from a text that begins with 0 is kept as 49152, so that the text can be written again.
#[derive(Clone, Copy)]
pub struct EntryMode {
    pub internal: u16,
}

// The answer of a call that makes a mode: number 0 in it on a refusal.
#[derive(Clone, Copy)]
pub struct ModeAnswer {
    pub verdict: Verdict,
    pub mode: EntryMode,
}

// The answer to a text that stands alone and is no mode's: refusal 3, part 1.
const NO_TEXT: ModeAnswer = ModeAnswer {
    verdict: Verdict {
        number: BROKEN_ENTRY,
        place: 0,
        part: NO_MODE,
    },
    mode: EntryMode { internal: 0 },
};

// The answer to a number that is no mode's: refusal 23.
const NO_NUMBER: ModeAnswer = ModeAnswer {
    verdict: Verdict {
        number: NO_MODE_OR_KIND,
        place: 0,
        part: 0,
    },
    mode: EntryMode { internal: 0 },
};

impl EntryMode {
    // The masks of the sort and of the owner's execute bit, and the sorts.
    pub const IFMT: u16 = 0o170000;

    pub const EXECUTE: u16 = 0o000100;

    pub const TREE: u16 = 0o040000;

    pub const BLOB: u16 = 0o100000;

    pub const LINK: u16 = 0o120000;

    pub const PADDED_TREE: u16 = 0o140000;

    pub const COMMIT: u16 = 0o160000;

    // The number a mode stands for: itself, but 16384 where the top four bits are those of 49152.
    pub fn value(self) -> u16
        ensures { result ≡ value_of self.internal }
    {
        if self.internal & EntryMode::IFMT == EntryMode::PADDED_TREE {
            return EntryMode::TREE;
        }
        self.internal
    }

    // The value's top four bits.
    fn sort(self) -> u16
        ensures { result ≡ sort_of self.internal }
    {
        self.value() & EntryMode::IFMT
    }

    pub fn is_tree(self) -> bool
        ensures { result ≡ is_tree self.internal }
    {
        self.sort() == EntryMode::TREE
    }

    pub fn is_commit(self) -> bool
        ensures { result ≡ eqb (sort_of self.internal) 0o160000 }
    {
        self.sort() == EntryMode::COMMIT
    }

    pub fn is_link(self) -> bool
        ensures { result ≡ eqb (sort_of self.internal) 0o120000 }
    {
        self.sort() == EntryMode::LINK
    }

    pub fn is_no_tree(self) -> bool
        ensures { result ≡ not (is_tree self.internal) }
    {
        self.sort() != EntryMode::TREE
    }

    pub fn is_blob(self) -> bool
        ensures { result ≡ eqb (sort_of self.internal) 0o100000 }
    {
        self.sort() == EntryMode::BLOB
    }

    pub fn kind(self) -> EntryKind
        ensures { result ≡ kind_of self.internal }
    {
        match self.sort() {
            EntryMode::BLOB => {
                if self.value() & EntryMode::EXECUTE == EntryMode::EXECUTE {
                    return EntryKind::BlobExecutable;
                }
                return EntryKind::Blob;
            }
            EntryMode::LINK => return EntryKind::Link,
            EntryMode::TREE => return EntryKind::Tree,
            _ => return EntryKind::Commit,
        }
    }

    pub fn is_executable(self) -> bool
        ensures { result ≡ is_executable (kind_of self.internal) }
    {
        self.kind().is_executable()
    }

    pub fn is_blob_or_symlink(self) -> bool
        ensures { result ≡ is_file_or_link (kind_of self.internal) }
    {
        self.kind().is_file_or_link()
    }

    // The word of the mode's kind.
    pub fn as_str(self) -> ShortText
        ensures { result ≡ word_of self.internal }
    {
        let row = written_of(self.kind());
        row.word
    }

    // The octal text that stands for the mode in a tree.
    pub fn as_bytes(self) -> ShortText
        ensures { result ≡ mode_text self.internal }
    {
        text_of(self.internal)
    }

    // A mode from a 32-bit number: refusal 23 where it is neither a tree's nor has bit 15 set.
    pub fn from_u32(n: u32) -> ModeAnswer
        ensures { result ≡ from_number n }
    {
        if (n == 0o40000) | (n & 0o100000 != 0) {
            return ModeAnswer {
                verdict: FINE,
                mode: EntryMode {
                    internal: (n % 0o200000) as u16,
                },
            };
        }
        NO_NUMBER
    }

    // A mode from a text that stands alone: refusals 2 and 3, at 0.
    pub fn from_bytes(i: &[u8]) -> ModeAnswer
        ensures { result ≡ mode_alone i.now }
    {
        match sizes(i.len(), 0) {
            Ok(()) => match EntryMode::extract_at(i, 0) {
                Some((m, _)) => {
                    return ModeAnswer {
                        verdict: FINE,
                        mode: m,
                    };
                }
                None => return NO_TEXT,
            },
            Err(v) => {
                return ModeAnswer {
                    verdict: v,
                    mode: EntryMode { internal: 0 },
                };
            }
        }
    }

    // The mode whose text begins at a place, and the place where the rest begins.
    pub fn extract_at(s: &[u8], at: usize) -> Option<(EntryMode, usize)>
        ensures { result ≡ read_mode_at s.now at }
    {
        match read_at(s, at) {
            Some((m, next)) => return Some((EntryMode { internal: m }, next)),
            None => return None,
        }
    }
}
