// A whole entry that lies in a piece (docs/FORMAT.md, "A check in pieces").
#![tactic(auto)]

ghost use Rattle.std.specs.Prelude.{◌≡◌};
ghost use Rattle.piece_seen.specs.Whole.{seen_at};

use arriving::MOST_HELD;
use ground::DONE;
use mode::EntryMode;
use mode_code::quick_code;
use rules::name_number;
use scan::find_nul;

// Where the name of a whole entry begins and ends, and whether it is a folder.
#[derive(Clone, Copy)]
pub struct Seen {
    pub start: usize,
    pub end: usize,
    pub folder: bool,
}

// The entry at a place of a piece, if it lies in it whole, its mode is one of the five, and nothing is said of its name.
pub fn seen_at(piece: &[u8], i: usize, h: usize) -> Option<Seen>
    ensures { result ≡ seen_at piece.now i h }
{
    let code = quick_code(piece, i);
    if code == 0 {
        return None;
    }
    let start = i + code % 16;
    let end = find_nul(piece, start);
    if piece.len() - end <= h {
        return None;
    }
    if MOST_HELD < end - start {
        return None;
    }
    if name_number(&piece[start..end]) != DONE {
        return None;
    }
    let mode = EntryMode {
        internal: (code / 16) as u16,
    };
    Some(Seen {
        start,
        end,
        folder: mode.is_tree(),
    })
}
