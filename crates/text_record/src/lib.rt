// One record of the text that `git ls-tree -z` prints, read: what it says, or the number that refuses it (docs/FORMAT.md, "Text").
#![tactic(auto)]

ghost use Rattle.std.specs.Prelude.{◌≡◌, take};
ghost use Rattle.mode_table.specs.Table.{rows};
ghost use Rattle.rules.specs.Rules.{modes_of};
ghost use Rattle.tree_text.specs.Text.{front_text};
ghost use Rattle.text_form.specs.Form.{begins};
ghost use Rattle.text_record.specs.Record.{pared, front_mode, name_end, said_number, text_number};

use ground::{BAD_TEXT, MODE_TEXT};
use rules::{mode_permitted, name_number};
use scan::{find_nul, same_bytes};
use text_form::name_from;
use tree_text::front_of;

// Octal digits as a tree's mode text: without a first `0`.
fn bare(t: &[u8]) -> &[u8]
    ensures { result.now ≡ pared t.now }
{
    if t.len() == 0 {
        return t;
    }
    if t[0] == b'0' {
        return &t[1..];
    }
    t
}

// The first bytes, at most so many.
fn first(s: &[u8], n: usize) -> &[u8]
    ensures { result.now ≡ take n s.now }
{
    if s.len() < n {
        return s;
    }
    &s[0..n]
}

// Whether the bytes begin with the digits and the word of a mode.
fn begins_with(b: &[u8], mode: u16) -> bool
    ensures { result ≡ begins (front_text mode) b.now }
{
    let front = front_of(mode as usize);
    let text = front.bytes;
    let n = front.len;
    same_bytes(first(b, n), &text[..n])
}

// The written mode with whose digits and word the bytes begin, or 0.
fn written_front(b: &[u8]) -> u16
    ensures { result ≡ front_mode rows b.now }
{
    if begins_with(b, 0o40000) {
        return 0o40000;
    }
    if begins_with(b, 0o100644) {
        return 0o100644;
    }
    if begins_with(b, 0o100755) {
        return 0o100755;
    }
    if begins_with(b, 0o120000) {
        return 0o120000;
    }
    if begins_with(b, 0o160000) {
        return 0o160000;
    }
    0
}

// The mode of the rule set with whose digits and word the bytes begin, or 0.
pub fn front_mode(b: &[u8], rules: u16) -> u16
    ensures { result ≡ front_mode (modes_of rules) b.now }
{
    if rules != 1 {
        return written_front(b);
    }
    if begins_with(b, 0o100664) {
        return 0o100664;
    }
    written_front(b)
}

// The place of the NUL behind the name, or the end of the bytes.
pub fn name_end(b: &[u8], h: usize) -> usize
    ensures { result ≡ name_end h b.now }
{
    let from = name_from(b, h);
    find_nul(b, from)
}

// What is said of a record whose form is right: 5, 20 for its word, 6 or 18.
fn said_number(b: &[u8], rules: u16, name: &[u8]) -> usize
    ensures { result ≡ said_number rules b.now name.now }
{
    if mode_permitted(rules, bare(first(b, 6))) {
        if front_mode(b, rules) == 0 {
            return BAD_TEXT;
        }
        return name_number(name);
    }
    MODE_TEXT
}

// What is said of the record at the front: 20, 5, 6, 18 or 0.
pub fn record_number(b: &[u8], h: usize, rules: u16) -> usize
    ensures { result ≡ text_number rules h b.now }
{
    let from = name_from(b, h);
    if from == 0 {
        return BAD_TEXT;
    }
    let end = find_nul(b, from);
    if b.len() <= end {
        return BAD_TEXT;
    }
    said_number(b, rules, &b[from..end])
}
