// A commit written from its parts, and its size (docs/FORMAT.md, "Commit writing"). Follows commit/write.rs and encode.rs.
// One walk serves both: it stores what has room and gives the place past it, so with no room it measures.
#![tactic(auto)]

ghost use Rattle.std.specs.Prelude.{◌≡◌, true, map, [], ◌∷◌, ◌++◌, ◌+◌, ◌-◌, ◌*◌, ◌/◌, ◌<◌, ◌≤◌, length};
ghost use Rattle.std.proofs.lemmas.List.Edits.{sets};
ghost use Rattle.ground.specs.Basics.{part};
ghost use Rattle.ground.specs.Verdict.{most_bytes, stored};
ghost use Rattle.header.specs.Record.{width};
ghost use Rattle.grammar.specs.Grammar.{line, parents_bytes, encoding_bytes};
ghost use Rattle.grammar.specs.Named.{id_named, header_named};
ghost use Rattle.commit_check.specs.Check.{headers_of, id_fits, encoding_fits, header_fits, passing, checked};
ghost use Rattle.commit_value.specs.Fold.{most_place};
ghost use Rattle.commit_write.specs.Written.{lower_hex, header_written, headers_written};
ghost use Rattle.commit_write.specs.Write.{encoding_named, parts_written, encoding_refusal, measured, commit_size, commit_answer};

use commit_check::check_commit;
use commit_value::{encoding_fault, put_byte, put_value};
use ground::{Answer, DONE, FINE, Verdict};
use header::{CommitParts, HEADER_WIDTH, HeaderRecord, header_at};
use hex_letter::lower;
use output::{fit, put, put_ended};

// Stores the digits of an id in lower case.
fn put_digits(out: &mut [u8], at: usize, digits: &[u8])
    requires { at + length digits.now < 18446744073709551616 }
    ensures { out.new ≡ sets out.old at (lower_hex digits.now) }
{
    for (i, digit) in digits.iter().enumerate() {
        put_byte(out, at + i, lower(*digit));
    }
}

// Stores the line of an id, whose digits start at a place.
fn put_id_line(out: &mut [u8], at: usize, word: &[u8], bytes: &[u8], h: usize, from: usize) -> usize
    requires h_in_bounds { from + 2 * h ≤ length bytes.now }
    requires h_bound { (h ≤ 32) × (at + (length word.now + 2 * h + 2) < 18446744073709551616) }
    ensures value { result ≡ at + length (line word.now (lower_hex (id_named h bytes.now from))) }
    ensures out_after { out.new ≡ sets out.old at (line word.now (lower_hex (id_named h bytes.now from))) }
{
    let end = from + 2 * h;
    let digits = at + word.len() + 1;
    let last = digits + 2 * h;
    put_ended(out, at, word, b' ');
    put_digits(out, digits, &bytes[from..end]);
    put_byte(out, last, b'\n');
    last + 1
}

// Stores the line of a value, which lies in a range.
fn put_line(out: &mut [u8], at: usize, word: &[u8], bytes: &[u8], from: usize, to: usize) -> usize
    requires from_le_to { (from ≤ to) × (to ≤ length bytes.now) }
    requires from_bound { at + (length word.now + (to - from) + 2) < 18446744073709551616 }
    ensures value { result ≡ at + length (line word.now (part from to bytes.now)) }
    ensures out_after { out.new ≡ sets out.old at (line word.now (part from to bytes.now)) }
{
    let value = at + word.len() + 1;
    let end = value + (to - from);
    put_ended(out, at, word, b' ');
    put_ended(out, value, &bytes[from..to], b'\n');
    end + 1
}

// Stores a header's name, which lies in a range, and a space.
fn put_name(out: &mut [u8], at: usize, bytes: &[u8], from: usize, to: usize) -> usize
    requires from_le_to { (from ≤ to) × (to ≤ length bytes.now) }
    requires from_bound { at + (to - from) + 1 < 18446744073709551616 }
    ensures value { result ≡ at + length (part from to bytes.now ++ 32 ∷ []) }
    ensures out_after { out.new ≡ sets out.old at (part from to bytes.now ++ 32 ∷ []) }
{
    put_ended(out, at, &bytes[from..to], b' ');
    at + (to - from) + 1
}

// Stores a header: a folded value as it stands.
fn put_header(out: &mut [u8], at: usize, bytes: &[u8], x: HeaderRecord) -> usize
    requires x_value { header_fits bytes.now x ≡ true }
    requires bytes_len_bound { (length bytes.now ≤ most_bytes) × (at + 3221225474 ≤ most_place) }
    ensures value { result ≡ at + length (header_written (header_named bytes.now x)) }
    ensures out_after { out.new ≡ sets out.old at (header_written (header_named bytes.now x)) }
{
    let value = put_name(out, at, bytes, x.name_start, x.name_end);
    put_value(out, value, &bytes[x.value_start..x.value_end], x.mark)
}

// Stores the lines of all parents.
fn put_parents(out: &mut [u8], at: usize, bytes: &[u8], h: usize, parents: &[usize]) -> usize
    requires parents_value { passing (map (id_fits h bytes.now) parents.now) ≡ length parents.now }
    requires h_bound { (h ≤ 32) × (at + length parents.now * 72 < 18446744073709551616) }
    ensures value { result ≡ at + length (parents_bytes (map lower_hex (map (id_named h bytes.now) parents.now))) }
    ensures out_after { out.new ≡ sets out.old at (parents_bytes (map lower_hex (map (id_named h bytes.now) parents.now))) }
{
    let mut to = at;
    for from in parents {
        to = put_id_line(out, to, b"parent", bytes, h, *from);
    }
    to
}

// Stores all headers.
fn put_headers(out: &mut [u8], at: usize, bytes: &[u8], headers: &[usize]) -> usize
    requires headers_value { passing (map (header_fits bytes.now) (headers_of headers.now)) ≡ length headers.now / width }
    requires bytes_len_bound { (length bytes.now ≤ most_bytes) × (at + (length headers.now / width) * 3221225474 ≤ most_place) }
    ensures value { result ≡ at + length (headers_written (map (header_named bytes.now) (headers_of headers.now))) }
    ensures out_after { out.new ≡ sets out.old at (headers_written (map (header_named bytes.now) (headers_of headers.now))) }
{
    let n = headers.len() / HEADER_WIDTH;
    let mut to = at;
    // By index: the records lie flat as C lends them, and `header_at` reads one.
    for i in 0..n {
        to = put_header(out, to, bytes, header_at(headers, i));
    }
    to
}

// Stores the line of the encoding, if there is one.
fn put_encoding(out: &mut [u8], at: usize, bytes: &[u8], p: CommitParts) -> usize
    requires p_value { encoding_fits (length bytes.now) p ≡ true }
    requires bytes_len_bound { (length bytes.now ≤ most_bytes) × (at + 1073741834 < 18446744073709551616) }
    ensures value { result ≡ at + length (encoding_bytes (encoding_named bytes.now p)) }
    ensures out_after { out.new ≡ sets out.old at (encoding_bytes (encoding_named bytes.now p)) }
{
    if p.encoding == 1 {
        return put_line(
            out,
            at,
            b"encoding",
            bytes,
            p.encoding_start,
            p.encoding_end,
        );
    }
    at
}

// Stores the blank line and the message, which lies in a range.
fn put_message(out: &mut [u8], at: usize, bytes: &[u8], from: usize, to: usize) -> usize
    requires from_le_to { (from ≤ to) × (to ≤ length bytes.now) }
    requires from_bound { at + (to - from) + 1 < 18446744073709551616 }
    ensures value { result ≡ at + length (10 ∷ part from to bytes.now) }
    ensures out_after { out.new ≡ sets out.old at (10 ∷ part from to bytes.now) }
{
    let next = at + 1;
    put_byte(out, at, b'\n');
    put(out, next, &bytes[from..to]);
    next + (to - from)
}

// Stores a commit at the front, as far as there is room, and gives its length.
fn put_commit(
    out: &mut [u8],
    bytes: &[u8],
    h: usize,
    parts: CommitParts,
    parents: &[usize],
    headers: &[usize],
) -> usize
    requires { (checked h bytes.now parts parents.now headers.now 0).number ≡ 0 }
    ensures value { result ≡ length (parts_written h bytes.now parts parents.now headers.now) }
    ensures out_after { out.new ≡ sets out.old 0 (parts_written h bytes.now parts parents.now headers.now) }
{
    let a = put_id_line(out, 0, b"tree", bytes, h, parts.tree);
    let b = put_parents(out, a, bytes, h, parents);
    let c = put_line(
        out,
        b,
        b"author",
        bytes,
        parts.author_start,
        parts.author_end,
    );
    let d = put_line(
        out,
        c,
        b"committer",
        bytes,
        parts.committer_start,
        parts.committer_end,
    );
    let e = put_encoding(out, d, bytes, parts);
    let f = put_headers(out, e, bytes, headers);
    put_message(out, f, bytes, parts.message_start, parts.message_end)
}

// The number that refuses the encoding, or 0.
fn encoding_refusal(bytes: &[u8], p: CommitParts) -> usize
    requires { encoding_fits (length bytes.now) p ≡ true }
    ensures { result ≡ encoding_refusal (encoding_named bytes.now p) }
{
    if p.encoding == 1 {
        return encoding_fault(&bytes[p.encoding_start..p.encoding_end]);
    }
    DONE
}

// The size, or refusal 1, 2 or 10, where so much room is lent.
fn measure(
    bytes: &[u8],
    h: usize,
    parts: CommitParts,
    parents: &[usize],
    headers: &[usize],
    room: usize,
) -> Answer
    ensures { result ≡ measured h bytes.now parts parents.now headers.now room }
{
    let verdict = check_commit(bytes, h, parts, parents, headers, room);
    let number = verdict.number;
    if number != DONE {
        return Answer { verdict, count: 0 };
    }
    let mut none = [0u8; 0];
    let count = put_commit(&mut none, bytes, h, parts, parents, headers);
    Answer {
        verdict: FINE,
        count,
    }
}

// The size of the commit that the parts and the lent lists name.
pub fn commit_size(
    bytes: &[u8],
    h: usize,
    parts: CommitParts,
    parents: &[usize],
    headers: &[usize],
) -> Answer
    ensures { result ≡ commit_size h bytes.now parts parents.now headers.now }
{
    measure(bytes, h, parts, parents, headers, 0)
}

// Writes the commit that the parts and the lent lists name.
pub fn write_commit(
    bytes: &[u8],
    h: usize,
    parts: CommitParts,
    parents: &[usize],
    headers: &[usize],
    out: &mut [u8],
) -> Answer
    ensures value { result ≡ commit_answer h bytes.now parts parents.now headers.now (length out.old) }
    ensures out_after { out.new ≡ stored (commit_answer h bytes.now parts parents.now headers.now (length out.old)).verdict (parts_written h bytes.now parts parents.now headers.now) out.old }
{
    let a = measure(bytes, h, parts, parents, headers, out.len());
    let refusal = a.verdict.number;
    if refusal != DONE {
        return a;
    }
    let fault = encoding_refusal(bytes, parts);
    if fault != DONE {
        return Answer {
            verdict: Verdict {
                number: fault,
                ..FINE
            },
            count: 0,
        };
    }
    let answer = fit(out.len(), a);
    let short = answer.verdict.number;
    if short != DONE {
        return answer;
    }
    put_commit(out, bytes, h, parts, parents, headers);
    answer
}
