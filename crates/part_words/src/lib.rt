// The words for the part of an entry that cannot be read, as `listing` says them on standard error (docs/FORMAT.md, "Examples").
#![tactic(auto)]

ghost use Rattle.std.specs.Prelude.{◌≡◌, length};
ghost use Rattle.std.proofs.lemmas.List.Edits.{sets};
ghost use Rattle.part_words.specs.Words.{part_words, Stored};

use output::put;

// Stores words at the front, as far as there is room, and gives how long they are.
fn store(out: &mut [u8], words: &[u8]) -> usize
    ensures { Stored out.old words.now out.new result }
{
    put(out, 0, words);
    words.len()
}

// What a part that cannot be read is called, to the front of a lent output, as far as there is room; gives how long it is.
pub fn put_part(out: &mut [u8], part: usize) -> usize
    ensures count { result ≡ length (part_words part) }
    ensures out { out.new ≡ sets out.old 0 (part_words part) }
{
    if part == 1 {
        return store(out, b"the entry's mode cannot be read");
    }
    if part == 2 {
        return store(out, b"the entry's name has no end");
    }
    if part == 3 {
        return store(out, b"the entry's id is cut");
    }
    0
}
