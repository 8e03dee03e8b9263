// One walk over a tree object that leaves out the entries of a name and puts a new one where it belongs (docs/FORMAT.md, "Edits").
// It stores where there is room and always counts, so that it measures first and then writes.
#![tactic(auto)]

ghost use Rattle.std.specs.Prelude.{◌≡◌, ◌+◌, ◌≤◌, length};
ghost use Rattle.std.proofs.lemmas.List.Edits.{sets};
ghost use Rattle.ground.specs.Verdict.{most_bytes, most_records};
ghost use Rattle.entry.specs.Entry.{entry_bytes};
ghost use Rattle.reading.specs.Listing.{plain};
ghost use Rattle.edit_walk.specs.Walk.{new_entry, carried, kept_in, walk_bytes, walk_of};

use edit_turn::{Fate, turn_at};
use ground::{longer, sizes};
use mode::EntryMode;
use output::{put, put_ended};

// What a walk took: the bytes of its result, and the entries carried over.
#[derive(Clone, Copy)]
pub struct Walked {
    pub used: usize,
    pub kept: usize,
}

// Writes a new entry at a place, as far as there is room, and gives the place past it.
fn put_new(out: &mut [u8], at: usize, mode: u16, name: &[u8], id: &[u8]) -> usize
    requires { (length name.now ≤ most_bytes) × (length id.now ≤ most_bytes) × (at ≤ 9007199254740992) }
    ensures next { (result ≡ at + length (entry_bytes (new_entry mode name.now id.now))) × (result ≤ at + 2147483656) }
    ensures out { out.new ≡ sets out.old at (entry_bytes (new_entry mode name.now id.now)) }
{
    let m = EntryMode { internal: mode };
    let text = m.as_bytes();
    let digits = text.bytes;
    let n = text.len;
    let second = at + n + 1;
    let third = second + name.len() + 1;
    put_ended(out, at, &digits[..n], b' ');
    put_ended(out, second, name, 0);
    put(out, third, id);
    third + id.len()
}

// The walk: so many entries are read, those of the name are left out, and the new one is put unless it is done with.
fn carry(
    s: &[u8],
    h: usize,
    count: usize,
    mode: u16,
    name: &[u8],
    id: &[u8],
    done: bool,
    out: &mut [u8],
) -> Walked
    requires { (length name.now ≤ most_bytes) × (length id.now ≤ most_bytes) × (length s.now ≤ most_bytes) × (count ≤ most_records) }
    ensures used { result.used ≡ length (carried h s.now (new_entry mode name.now id.now) done (plain h count 0 s.now)) }
    ensures kept { result.kept ≡ kept_in s.now name.now (plain h count 0 s.now) }
    ensures out { out.new ≡ sets out.old 0 (carried h s.now (new_entry mode name.now id.now) done (plain h count 0 s.now)) }
{
    let m = EntryMode { internal: mode };
    let tree = m.is_tree();
    let mut left = count;
    let mut at: usize = 0;
    let mut used: usize = 0;
    let mut kept: usize = 0;
    let mut placed = done;
    // Counted down: where no entry can be read, none is left, so one invariant says what the walk gives however it ends.
    while 0 < left {
        match turn_at(s, h, at, name, tree, placed) {
            None => {
                left = 0;
                continue;
            }
            Some((fate, next)) => match fate {
                Fate::Out => {
                    at = next;
                    left -= 1;
                    continue;
                }
                Fate::Over => {
                    put(out, used, &s[at..next]);
                    used += next - at;
                    kept += 1;
                    at = next;
                    left -= 1;
                    continue;
                }
                Fate::Behind => {
                    let from = put_new(out, used, mode, name, id);
                    put(out, from, &s[at..next]);
                    used = from + (next - at);
                    kept += 1;
                    placed = true;
                    at = next;
                    left -= 1;
                    continue;
                }
            },
        }
    }
    if placed {
        return Walked { used, kept };
    }
    let end = put_new(out, used, mode, name, id);
    Walked { used: end, kept }
}

// The walk over an object of so many entries, where no buffer and no count is over its bound; else nothing is done.
pub fn walk(
    s: &[u8],
    h: usize,
    count: usize,
    mode: u16,
    name: &[u8],
    id: &[u8],
    done: bool,
    out: &mut [u8],
) -> Walked
    ensures walked { result ≡ walk_of h s.now count (new_entry mode name.now id.now) done }
    ensures out { out.new ≡ sets out.old 0 (walk_bytes h s.now count (new_entry mode name.now id.now) done) }
{
    match sizes(longer(s.len(), longer(name.len(), id.len())), count) {
        Err(_) => Walked { used: 0, kept: 0 },
        Ok(()) => carry(s, h, count, mode, name, id, done, out),
    }
}
