// What an edit does with one entry of a tree object (docs/FORMAT.md, "Edits"): an entry of the name is left out, any other is carried over, and the
// new one is put ahead of the first that does not stand before it.
#![tactic(auto)]

ghost use Rattle.std.specs.Prelude.{◌≡◌};
ghost use Rattle.edit_turn.specs.Turns.{fate_of, turn_at};

use entry::Cursor;
use entry_record::is_folder;
use order::name_order;
use scan::same_bytes;
use std::cmp::Ordering;

// What is done with an entry: it is left out, carried over, or carried over behind the new one.
#[derive(Clone, Copy)]
pub enum Fate {
    Out,
    Over,
    Behind,
}

// What is done with an entry of a name and a sort, where a new name is put unless it is placed already.
fn fate_of(own: &[u8], folder: bool, name: &[u8], tree: bool, placed: bool) -> Fate
    ensures { result ≡ fate_of own.now folder name.now tree placed }
{
    if same_bytes(own, name) {
        return Fate::Out;
    }
    if placed {
        return Fate::Over;
    }
    match name_order(own, folder, name, tree) {
        Ordering::Less => Fate::Over,
        Ordering::Equal => Fate::Behind,
        Ordering::Greater => Fate::Behind,
    }
}

// What is done with the entry at a place.
pub fn turn_at(
    s: &[u8],
    h: usize,
    at: usize,
    name: &[u8],
    tree: bool,
    placed: bool,
) -> Option<(Fate, usize)>
    ensures { result ≡ turn_at h s.now at name.now tree placed }
{
    let c = Cursor { at };
    match c.decode(s, h) {
        Err(_) => None,
        Ok((e, next)) => {
            let start = e.name_start;
            let end = e.name_end;
            let past = next.at;
            match fate_of(&s[start..end], is_folder(e), name, tree, placed) {
                Fate::Out => Some((Fate::Out, past)),
                Fate::Over => Some((Fate::Over, past)),
                Fate::Behind => Some((Fate::Behind, past)),
            }
        }
    }
}
