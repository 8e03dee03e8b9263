// What mending does to one entry: whether it stays, and the text of its kind's own mode (docs/FORMAT.md, "Mending").
#![tactic(auto)]

ghost use Rattle.std.specs.Prelude.{◌≡◌, ◌&&◌, eqb};
ghost use Rattle.ground.specs.Basics.{pick};
ghost use Rattle.ground.specs.Scan.{same_bytes};
ghost use Rattle.rules.specs.Rules.{bare_number};
ghost use Rattle.mode.specs.Mode.{kind_of};
ghost use Rattle.mode.specs.Table.{written_of};
ghost use Rattle.fate.specs.Fate.{stays_mode, own_text, fate_of};

use ground::DONE;
use mode::EntryMode;
use mode_table::written_of;
use mode_text::ShortText;
use rules::name_number;
use scan::same_bytes;

// What was done to an entry.
pub const KEPT: usize = 0;

pub const CHANGED: usize = 1;

pub const NO_NAME: usize = 2;

pub const NO_SORT: usize = 3;

pub const KEPT_BEFORE: usize = 4;

// Whether a mode is a file's, a link's, a tree's or a submodule's, by its sort.
fn stays_mode(mode: usize) -> bool
    ensures { result ≡ stays_mode mode }
{
    let m = EntryMode {
        internal: (mode % 65536) as u16,
    };
    if m.is_blob() {
        return true;
    }
    if m.is_link() {
        return true;
    }
    if m.is_tree() {
        return true;
    }
    m.is_commit()
}

// The text of the kind's own mode.
pub fn own_text(mode: usize) -> ShortText
    ensures { result ≡ (written_of (kind_of mode)).text }
{
    let m = EntryMode {
        internal: (mode % 65536) as u16,
    };
    let row = written_of(m.kind());
    row.text
}

// Whether an entry of such a name and mode stays where no entry before it has its name.
pub fn may_stay(name: &[u8], mode: usize) -> bool
    ensures { result ≡ (eqb (bare_number name.now) 0 && stays_mode mode) }
{
    if name_number(name) != DONE {
        return false;
    }
    stays_mode(mode)
}

// Whether a text is that of the kind's own mode.
fn is_own(text: &[u8], mode: usize) -> usize
    ensures { result ≡ pick (same_bytes text.now (own_text mode)) 0 1 }
{
    let own = own_text(mode);
    let bytes = own.bytes;
    let n = own.len;
    if same_bytes(text, &bytes[..n]) {
        return KEPT;
    }
    CHANGED
}

// What is done to an entry of such a mode text, name and mode: the first reason to drop it, or whether its text is changed.
pub fn fate_of(text: &[u8], name: &[u8], mode: usize, before: bool) -> usize
    ensures { result ≡ fate_of (bare_number name.now) mode before text.now }
{
    if name_number(name) != DONE {
        return NO_NAME;
    }
    if stays_mode(mode) {
        if before {
            return KEPT_BEFORE;
        }
        return is_own(text, mode);
    }
    NO_SORT
}
