// Says what mending does to each entry of a tree object: `./run mend [sha256] <object` (docs/FORMAT.md, "Mending"). A line an entry, in the object's
// order: its mode text as it stands, what is done in words, a colon, its name. A refusal is one line with its number, place and part.
#![tactic(auto)]

use entry::EntryRecord;
use entry_record::{WIDTH, entry_at};
use fate::{CHANGED, KEPT, NO_NAME, NO_SORT, own_text};
use mend::mend_tree;
use reading::read_tree;
use saying::{done, read_whole, say, say_refused, say_too_long};
use std::io;
use words::{id_length, word_at};

// The word and the object together have at most so many bytes, and so many entries: one has 22 at least.
const LONGEST: usize = 135168;

const MOST: usize = 6144;

// What is done to an entry of such a mode, in words, with the text of the kind's own mode where that becomes the entry's.
fn say_fate(rt: &impl Print, fate: usize, mode: usize) -> io::Result<()> {
    match fate {
        KEPT => say(rt, b"kept"),
        CHANGED => {
            let own = own_text(mode);
            say(rt, b"becomes ")?;
            say(rt, own.bytes.get(..own.len).unwrap_or_default())
        }
        NO_NAME => say(rt, b"dropped, its name is not permitted"),
        NO_SORT => say(
            rt,
            b"dropped, its mode is no file's, link's, tree's or submodule's",
        ),
        _ => say(rt, b"dropped, its name was kept before"),
    }
}

// The mode's text ends at the space ahead of the name.
fn say_line(rt: &impl Print, s: &[u8], e: EntryRecord, fate: usize) -> io::Result<()> {
    let text = s.get(e.text_start..e.name_start.saturating_sub(1));
    say(rt, text.unwrap_or_default())?;
    say(rt, b" ")?;
    say_fate(rt, fate, e.mode)?;
    say(rt, b": ")?;
    say(rt, s.get(e.name_start..e.name_end).unwrap_or_default())?;
    say(rt, b"\n")
}

// A line for each entry.
fn say_lines(rt: &impl Print, s: &[u8], records: &[usize], fates: &[usize]) -> io::Result<()> {
    for (i, fate) in fates.iter().enumerate() {
        say_line(rt, s, entry_at(records, i), *fate)?;
    }
    Ok(())
}

fn mend(rt: &impl Print, object: &[u8], h: usize) -> io::Result<()> {
    let mut fates = [0usize; MOST];
    let mut out = [0u8; LONGEST];
    let a = mend_tree(object, h, &mut fates, &mut out);
    if let Err(v) = done(a.verdict) {
        return say_refused(rt, v);
    }
    let mut records = [0usize; MOST * WIDTH];
    read_tree(object, h, &mut records);
    say_lines(
        rt,
        object,
        &records,
        fates.get(..a.entries).unwrap_or_default(),
    )
}

// The word, the empty line behind it, and the object.
fn work(rt: &impl Print, s: &[u8]) -> io::Result<()> {
    let ids = id_length(s);
    let blank = word_at(s, ids.next);
    mend(rt, s.get(blank.next..).unwrap_or_default(), ids.h)
}

// Reads standard input; longer than it may be it is 2.
fn main(rt: HostRuntime) -> io::Result<()> {
    let mut all = [0u8; LONGEST];
    match read_whole(&mut rt.stdin(), &mut all)? {
        Some(n) => work(&rt, all.get(..n).unwrap_or_default()),
        None => say_too_long(&rt),
    }
}
