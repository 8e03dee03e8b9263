// The calls on modes, names, trees and ids, as C has them, on what cases.rt has in `s` and `g`; each gives the numbers that it answers.
use crate::cases::{ANSWERS, B, BYTES, Case, H, SECOND, X, Y, set};
use crate::wide::wide;
use entry::EntryRecord;
use entry_record::entry_at;
use lookup::Looked;
use mode::EntryMode;
use output::put;
use record_slice::{ROOM, bisect_array};
use std::array;

// Where the rest begins behind a mode text that an entry begins with, and 0 where there is none.
fn rest(text: &[u8]) -> usize {
    EntryMode::extract_at(text, 0).map_or(0, |(_, rest)| rest)
}

// 1: a mode text, read alone and as the front of an entry.
pub fn mode_text(c: Case) -> [usize; ANSWERS] {
    let text = c.a();
    let mut t = [0usize; 4];
    border_mode::mode_read(text, &mut t);
    let mut told = wide(&t);
    told[4] = rest(text);
    told
}

// The questions to a mode, its value, its kind, and how long its text and its word are.
fn mode_numbers(mode: u16, text: usize, word: usize) -> [usize; ANSWERS] {
    let mut t = [0usize; 7];
    border_kind::mode_ask(mode, &mut t);
    let mut told = wide(&t);
    told[7] = border_mode::mode_value(mode) as usize;
    told[8] = border_kind::mode_kind(mode) as usize;
    told[9] = text;
    told[10] = word;
    told
}

// 2: what a mode answers. Its text and its word have room for six bytes each.
pub fn mode_asked(c: Case, out: &mut [u8]) -> [usize; ANSWERS] {
    let mode = (c.number(H) % 65536) as u16;
    let mut text = [0u8; 6];
    let mut word = [0u8; 6];
    let text_long = border_kind::mode_text(mode, &mut text);
    let word_long = border_kind::mode_word(mode, &mut word);
    put(out, 0, &text);
    put(out, 6, &word);
    mode_numbers(mode, text_long, word_long)
}

// 4: two names, each with whether it is a tree's: 0 for below, 1 for the same, 2 for above.
pub fn name_order(c: Case) -> [usize; ANSWERS] {
    let mut told = [0usize; ANSWERS];
    match border_lookup::name_order(c.a(), c.number(H) != 0, c.bytes(B), c.number(SECOND) != 0) {
        0 => told[0] = 1,
        1 => told[0] = 2,
        _ => {}
    }
    told
}

// 5: a tree, read plainly; 6: strictly; 11: many names sought.
pub fn listed(call: u8, c: Case, p: &mut [usize]) -> [usize; 4] {
    let object = c.a();
    let h = c.number(H);
    let mut t = [0usize; 4];
    match call {
        5 => border_tree::read_tree(object, h, p, &mut t),
        6 => border_tree::read_tree_strict(object, h, c.rules(), p, &mut t),
        _ => border_lookup::bisect_entries(object, h, c.list(X), c.bytes(B), c.list(Y), p, &mut t),
    };
    t
}

fn step(object: &[u8], h: usize, at: usize) -> [usize; 10] {
    let mut t = [0usize; 10];
    border_tree::tree_step(object, h, at, &mut t);
    t
}

// The record that a step found, stored from a place on.
fn set_record(p: &mut [usize], to: usize, t: [usize; 10]) {
    for i in 0..5 {
        set(p, to.wrapping_add(i), t[5 + i]);
    }
}

// A tree by steps from one entry to the next, which are stored, until one finds none: its answer, and how many found one.
fn steps(object: &[u8], h: usize, from: usize, p: &mut [usize]) -> [usize; ANSWERS] {
    let mut at = from;
    for found in 0..BYTES {
        let t = step(object, h, at);
        if t[3] == 0 {
            let mut told = wide(&t);
            told[10] = found;
            return told;
        }
        set_record(p, found * 5, t);
        at = t[4];
    }
    [0; ANSWERS]
}

// 7: a tree by steps.
pub fn walk(c: Case, p: &mut [usize]) -> [usize; ANSWERS] {
    steps(c.a(), c.number(H), c.number(SECOND), p)
}

// 8: a name sought by halving; 10: whatever its sort.
pub fn sought(call: u8, c: Case) -> [usize; 5] {
    let mut t = [0usize; 5];
    if call == 8 {
        border_lookup::bisect_entry(
            c.a(),
            c.number(H),
            c.list(X),
            c.bytes(B),
            c.number(SECOND) != 0,
            &mut t,
        );
    } else {
        border_lookup::bisect_any(c.a(), c.number(H), c.list(X), c.bytes(B), &mut t);
    }
    t
}

// The records as structs, as far as an array has room.
fn structs_of(x: &[usize]) -> [EntryRecord; ROOM] {
    array::from_fn(|i| entry_at(x, i))
}

fn looked(l: Looked) -> [usize; ANSWERS] {
    let v = l.verdict;
    wide(&[v.number, v.place, v.part, l.index, l.compared])
}

// 9: the same among records that are structs.
pub fn among_structs(c: Case) -> [usize; ANSWERS] {
    let records = c.list(X);
    looked(bisect_array(
        c.a(),
        c.number(H),
        records.len() / 5,
        structs_of(records),
        c.bytes(B),
        c.number(SECOND) != 0,
    ))
}

// 3: a mode from a 32-bit number; 12: the size of an object, from records.
pub fn sized(call: u8, c: Case) -> [usize; 4] {
    let mut t = [0usize; 4];
    if call == 3 {
        border_mode::mode_from_number((c.number(H) % 4294967296) as u32, &mut t);
    } else {
        border_tree_write::tree_size(c.a(), c.number(H), c.list(X), &mut t);
    }
    t
}

// 13: the bytes of an object, from records; 14: the header of a loose object; 15: the id that some digits say; 16: the digits of an id.
pub fn put_out(call: u8, c: Case, out: &mut [u8]) -> [usize; 4] {
    let object = c.a();
    let mut t = [0usize; 4];
    match call {
        13 => border_tree_write::write_tree(object, c.number(H), c.list(X), out, &mut t),
        14 => border_tree_write::loose_header(c.number(H), c.number(SECOND) as u64, out, &mut t),
        15 => border_hex::id_of_hex(object, out, &mut t),
        _ => border_hex::hex_of_id(object, out, &mut t),
    };
    t
}
