// What a mode is asked, as C asks it (include/sarpukten.h): its kind, the seven questions, its word and its text.
#![tactic(auto)]

ghost use Rattle.std.specs.Prelude.{◌≡◌};
ghost use Rattle.mode.specs.Mode.{kind_of, word_of};
ghost use Rattle.mode_text.specs.Write.{mode_text};
ghost use Rattle.mode_table.specs.Table.{written_of};
ghost use Rattle.border_kind.specs.Border.{mode_asked};

use mode::EntryMode;
use mode_table::written_of;

// A mode's kind, as the one of the five written modes that has it.
pub fn mode_kind(mode: u16) -> u16
    ensures { result ≡ (written_of (kind_of mode)).mode }
{
    let m = EntryMode { internal: mode };
    written_of(m.kind()).mode
}

// The seven questions to a mode.
pub fn mode_ask(mode: u16, answer: &mut [usize; 7])
    ensures { answer.new ≡ mode_asked mode }
{
    let m = EntryMode { internal: mode };
    *answer = [
        m.is_tree() as usize,
        m.is_no_tree() as usize,
        m.is_blob() as usize,
        m.is_executable() as usize,
        m.is_blob_or_symlink() as usize,
        m.is_link() as usize,
        m.is_commit() as usize,
    ];
}

// The word of a mode's kind, with 0 behind it; its length is returned.
pub fn mode_word(mode: u16, word: &mut [u8; 6]) -> usize
    ensures value { result ≡ (word_of mode).len }
    ensures word_after { word.new ≡ (word_of mode).bytes }
{
    let m = EntryMode { internal: mode };
    let w = m.as_str();
    let bytes = w.bytes;
    *word = bytes;
    w.len
}

// A mode's octal text, with 0 behind it; its length is returned.
pub fn mode_text(mode: u16, text: &mut [u8; 6]) -> usize
    ensures value { result ≡ (mode_text mode).len }
    ensures text_after { text.new ≡ (mode_text mode).bytes }
{
    let m = EntryMode { internal: mode };
    let t = m.as_bytes();
    let bytes = t.bytes;
    *text = bytes;
    t.len
}
