// Runs every mode and the mode texts of docs/FORMAT.md, "Modes", and writes what comes of them; expected.py computes the same without Rattle.
// A line for each of the 16 sorts: the sort in octal, and the sum over its 4,096 modes.
#![tactic(auto)]

use mode::{EntryMode, ModeAnswer};
use mode_text::ShortText;
use std::io;

// A space, and a text.
fn say_text(rt: &impl Print, t: ShortText) -> io::Result<()> {
    rt.write_all(b" ")?;
    rt.write_all(t.bytes.get(..t.len).unwrap_or_default())
}

// The sum takes a number x: sum * 31 + x, modulo 2^32.
fn take(sum: u32, x: u32) -> u32 {
    sum.wrapping_mul(31).wrapping_add(x)
}

// The six bytes of a text, with 0 behind it.
fn take_text(sum: u32, t: ShortText) -> u32 {
    t.bytes.iter().fold(sum, |all, b| take(all, u32::from(*b)))
}

fn take_read(sum: u32, r: Option<(EntryMode, usize)>) -> u32 {
    match r {
        Some((m, n)) => take(take(sum, u32::from(m.internal)), (n % 4294967296) as u32),
        None => take(take(sum, 65536), 0),
    }
}

// A text, a space and the letter a, read.
fn read_back(t: ShortText) -> Option<(EntryMode, usize)> {
    let b = t.bytes;
    let n = t.len;
    if 6 < n {
        return None;
    }
    let mut line = [b[0], b[1], b[2], b[3], b[4], b[5], 0, 0];
    line[n] = 32;
    line[n + 1] = 97;
    let end = n + 2;
    EntryMode::extract_at(&line[..end], 0)
}

// What the sum takes of a mode, in this order: the value, the kind's place in the table, the text, the mode read back (65536 if refused), and where
// the rest begins (0 if refused).
fn one_mode(m: u16, sum: u32) -> u32 {
    let mode = EntryMode { internal: m };
    let t = mode.as_bytes();
    let a = take(take(sum, u32::from(mode.value())), mode.kind() as u32);
    take_read(take_text(a, t), read_back(t))
}

// All modes of a sort, in ascending order: the sum, which begins with 0.
fn all_modes(sort: u16) -> u32 {
    let mut sum = 0;
    for low in 0..4096 {
        sum = one_mode(sort % 16 * 4096 + low, sum);
    }
    sum
}

// Number, mode, where the rest begins, value, kind word and written text; or the refusal.
fn answered(rt: &impl Print, a: ModeAnswer, rest: usize) -> io::Result<()> {
    let v = a.verdict;
    let m = a.mode;
    if v.number != 0 {
        return println!(rt; " refused {} at {}", v.number, v.place);
    }
    print!(rt; " 0 {} {rest} {}", m.internal, m.value())?;
    say_text(rt, m.as_str())?;
    say_text(rt, m.as_bytes())?;
    rt.write_all(b"\n")
}

fn one_text(rt: &impl Print, s: &[u8]) -> io::Result<()> {
    rt.write_all(b"`")?;
    rt.write_all(s)?;
    rt.write_all(b"`")?;
    answered(
        rt,
        EntryMode::from_bytes(s),
        EntryMode::extract_at(s, 0).map_or(0, |(_, rest)| rest),
    )
}

// A mode from a number has no rest: 0 stands there.
fn one_number(rt: &impl Print, n: u32) -> io::Result<()> {
    print!(rt; "0o{n:o}")?;
    answered(rt, EntryMode::from_u32(n), 0)
}

fn main(rt: HostRuntime) -> io::Result<()> {
    for sort in 0..16 {
        let sum = all_modes(sort);
        println!(rt; "{sort:02o}0000 {sum}")?;
    }
    one_text(&rt, b"100644 ")?;
    one_text(&rt, b"40000 ")?;
    one_text(&rt, b"040000 ")?;
    one_text(&rt, b"140755 ")?;
    one_text(&rt, b"040755 ")?;
    one_text(&rt, b"0000000 x")?;
    one_text(&rt, b"00000000 x")?;
    one_text(&rt, b"0 abcd e")?;
    one_text(&rt, b"0 abc de")?;
    one_text(&rt, b" abc")?;
    one_text(&rt, b" 12345 x")?;
    one_text(&rt, b"200000 ")?;
    one_text(&rt, b"1234567")?;
    one_text(&rt, b"")?;
    one_number(&rt, 0o300644)?;
    one_number(&rt, 0o200000)
}
