// Seeks a name in a tree object by order, as a loader does: `./run bisect [sha256] NAME <object`, a folder's name with a slash behind it
// (docs/FORMAT.md, "Lookup"). Prints the mode, the word of its kind and the id, or a refusal in one line.
#![tactic(auto)]

use entry::EntryRecord;
use entry_record::{WIDTH, entry_at};
use ground::Verdict;
use hex_of_id::hex_of_id;
use lookup::bisect_entry;
use mode::EntryMode;
use mode_text::ShortText;
use reading::read_tree;
use saying::{done, read_whole, say, say_refused, say_too_long};
use std::io;
use words::{id_length, word_at};

// Words and object together have at most so many bytes, and so many entries: one has 22 at least.
const LONGEST: usize = 135168;

const MOST: usize = 6144;

// A text, and a space behind it. `find` has the same: a crate for these few lines would be no plainer.
fn say_text(rt: &impl Print, t: ShortText) -> io::Result<()> {
    say(rt, t.bytes.get(..t.len).unwrap_or_default())?;
    say(rt, b" ")
}

// Mode, word and id.
fn say_entry(rt: &impl Print, object: &[u8], h: usize, e: EntryRecord) -> io::Result<()> {
    let mut digits = [0u8; 64];
    let mode = EntryMode {
        internal: (e.mode % 65536) as u16,
    };
    say_text(rt, mode.as_bytes())?;
    say_text(rt, mode.as_str())?;
    let id = object.get(e.id_start..e.id_start.saturating_add(h));
    let a = hex_of_id(id.unwrap_or_default(), &mut digits);
    say(rt, digits.get(..a.count).unwrap_or_default())?;
    say(rt, b"\n")
}

// The entry that has a name. A slash at the name's end says that a folder is sought.
fn sought(object: &[u8], h: usize, name: &[u8]) -> Result<EntryRecord, Verdict> {
    let mut numbers = [0usize; MOST * WIDTH];
    let read = read_tree(object, h, &mut numbers);
    done(read.verdict)?;
    let records = numbers
        .get(..read.count.saturating_mul(WIDTH))
        .unwrap_or_default();
    let (name, folder) = match name.strip_suffix(b"/") {
        Some(front) => (front, true),
        None => (name, false),
    };
    let a = bisect_entry(object, h, records, name, folder);
    done(a.verdict)?;
    Ok(entry_at(records, a.index))
}

// The words, the empty line behind them, and the object.
fn work(rt: &impl Print, s: &[u8]) -> io::Result<()> {
    let ids = id_length(s);
    let word = word_at(s, ids.next);
    let blank = word_at(s, word.next);
    let name = s.get(word.start..word.end).unwrap_or_default();
    let object = s.get(blank.next..).unwrap_or_default();
    match sought(object, ids.h, name) {
        Ok(e) => say_entry(rt, object, ids.h, e),
        Err(v) => say_refused(rt, v),
    }
}

// Reads standard input; longer than it may be it is 2.
fn main(rt: HostRuntime) -> io::Result<()> {
    let mut all = [0u8; LONGEST];
    match read_whole(&mut rt.stdin(), &mut all)? {
        Some(n) => work(&rt, all.get(..n).unwrap_or_default()),
        None => say_too_long(&rt),
    }
}
