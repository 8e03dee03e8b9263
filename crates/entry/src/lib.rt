// One tree entry, and the cursor that steps over an object (docs/FORMAT.md, "Entries"). Follows tree/ref_iter.rs.
#![tactic(auto)]

ghost use Rattle.std.specs.Prelude.{◌≡◌, drop};
ghost use Rattle.entry.specs.Decode.{broken_at, short_part, decode, no_entry, step_over, step_of};

use ground::{BROKEN_ENTRY, CUT_ID, FINE, NO_MODE, NO_NUL, Verdict, bounds};
use mode::EntryMode;
use scan::find_nul;

// An entry by its mode and by positions in the lent bytes; the last is where its mode text starts.
#[derive(Clone, Copy)]
pub struct EntryRecord {
    pub mode: usize,
    pub name_start: usize,
    pub name_end: usize,
    pub id_start: usize,
    pub text_start: usize,
}

// What stands for a record that is not there.
pub const NO_RECORD: EntryRecord = EntryRecord {
    mode: 0,
    name_start: 0,
    name_end: 0,
    id_start: 0,
    text_start: 0,
};

// A place in an object, from which the next entry is read.
#[derive(Clone, Copy)]
pub struct Cursor {
    pub at: usize,
}

// What a step of the cursor answers: where none was found the entry is all zeros. The flag stands beside it, and not as an `Option`, since C is lent
// both, and so does `step_of`, of which `demands` and `entry/specs/Parts` speak.
#[derive(Clone, Copy)]
pub struct Step {
    pub verdict: Verdict,
    pub found: bool,
    pub entry: EntryRecord,
    pub next: Cursor,
}

// Refusal 3: a part of the entry that starts at a place cannot be read.
fn broken(at: usize, part: usize) -> Result<(EntryRecord, Cursor), Verdict>
    ensures { result ≡ broken_at at part }
{
    Err(Verdict {
        number: BROKEN_ENTRY,
        place: at,
        part,
    })
}

// The part that is missing where so many bytes stand from the name's end on: 2 where no NUL is there, 3 where the id is cut.
fn short_part(left: usize) -> usize
    ensures { result ≡ short_part left }
{
    if left == 0 { NO_NUL } else { CUT_ID }
}

// A step that found no entry.
fn no_entry(verdict: Verdict, next: Cursor) -> Step
    ensures { result ≡ no_entry verdict next }
{
    Step {
        verdict,
        found: false,
        entry: NO_RECORD,
        next,
    }
}

// The step over what was read, in an object that ends at a place.
fn stepped(end: usize, d: Result<(EntryRecord, Cursor), Verdict>) -> Step
    ensures { result ≡ step_over end d }
{
    match d {
        Ok((e, next)) => Step {
            verdict: FINE,
            found: true,
            entry: e,
            next,
        },
        Err(w) => no_entry(w, Cursor { at: end }),
    }
}

impl Cursor {
    // One entry, with no test of the bounds: mode, name up to the first NUL, h bytes of id.
    pub fn decode(self, s: &[u8], h: usize) -> Result<(EntryRecord, Cursor), Verdict>
        ensures { result ≡ decode h self.at (drop self.at s.now) }
    {
        let at = self.at;
        match EntryMode::extract_at(s, at) {
            Some((m, rest)) => {
                let end = find_nul(s, rest);
                let left = s.len() - end;
                if left <= h {
                    return broken(at, short_part(left));
                }
                Ok((
                    EntryRecord {
                        mode: m.internal as usize,
                        name_start: rest,
                        name_end: end,
                        id_start: end + 1,
                        text_start: at,
                    },
                    Cursor { at: end + 1 + h },
                ))
            }
            None => broken(at, NO_MODE),
        }
    }

    // The next entry of a lent object, and the cursor past it.
    pub fn step(self, bytes: &[u8], h: usize) -> Step
        ensures { result ≡ step_of h bytes.now self }
    {
        match bounds(h, bytes.len(), 0) {
            Err(v) => no_entry(v, self),
            Ok(()) => {
                let end = bytes.len();
                if end <= self.at {
                    return no_entry(FINE, self);
                }
                stepped(end, self.decode(bytes, h))
            }
        }
    }
}
