// The records of a commit that is to be written, checked one by one (docs/FORMAT.md, "Commit writing").
#![tactic(auto)]

ghost use Rattle.std.specs.Prelude.{◌≡◌, map, ◌+◌, ◌≤◌, ◌/◌, length};
ghost use Rattle.ground.specs.Verdict.{most_records};
ghost use Rattle.header.specs.Record.{width};
ghost use Rattle.commit_check.specs.Check.{headers_of, ranged, id_fits, encoding_fits, header_fits, tests, late_tests, last_tests, passing, checked};

use extra_header::is_folded;
use ground::{BAD_RECORD, FINE, Verdict, bounds, longer};
use header::{CommitParts, HEADER_WIDTH, HeaderRecord, header_at, well_formed};
use hex_digits::is_hex;

// Whether a range runs forward inside so many bytes.
#[tactic(auto, unfolding(crate::specs::Check::ranged))]
fn is_range(from: usize, to: usize, len: usize) -> bool
    ensures { result ≡ ranged from to len }
{
    from <= to && to <= len
}

// Whether 2H hex digits start at a place.
fn is_id(bytes: &[u8], h: usize, at: usize) -> bool
    ensures { result ≡ id_fits h bytes.now at }
{
    at <= bytes.len() && h <= (bytes.len() - at) / 2 && is_hex(&bytes[at..at + 2 * h])
}

// Whether an encoding is absent, or a range.
#[tactic(auto, unfolding(crate::specs::Check::encoding_fits))]
fn is_encoding(len: usize, p: CommitParts) -> bool
    ensures { result ≡ encoding_fits len p }
{
    p.encoding == 0 || p.encoding == 1 && is_range(p.encoding_start, p.encoding_end, len)
}

// Whether a header is well formed, and folded where it says so.
fn is_header(bytes: &[u8], x: HeaderRecord) -> bool
    ensures { result ≡ header_fits bytes.now x }
{
    well_formed(x, bytes.len()) && (x.mark != 1 || is_folded(&bytes[x.value_start..x.value_end]))
}

// How many parents pass before the first that does not.
fn count_ids(bytes: &[u8], h: usize, parents: &[usize]) -> usize
    ensures { result ≡ passing (map (id_fits h bytes.now) parents.now) }
{
    for (i, at) in parents.iter().enumerate() {
        if !is_id(bytes, h, *at) {
            return i;
        }
    }
    parents.len()
}

// How many headers pass before the first that does not.
fn count_headers(bytes: &[u8], headers: &[usize]) -> usize
    ensures { result ≡ passing (map (header_fits bytes.now) (headers_of headers.now)) }
{
    let n = headers.len() / HEADER_WIDTH;
    // By index: the records lie flat as C lends them, and `header_at` reads one.
    for i in 0..n {
        if !is_header(bytes, header_at(headers, i)) {
            return i;
        }
    }
    n
}

// Encoding, headers and message: how many records pass, so many before them.
fn count_last(bytes: &[u8], parts: CommitParts, headers: &[usize], before: usize) -> usize
    requires { (before ≤ 1048579) × (length headers.now / width ≤ most_records) }
    ensures { result ≡ before + passing (last_tests bytes.now parts (headers_of headers.now)) }
{
    let m = headers.len() / HEADER_WIDTH;
    if !is_encoding(bytes.len(), parts) {
        return before;
    }
    let k = count_headers(bytes, headers);
    if k < m {
        return before + 1 + k;
    }
    if !is_range(parts.message_start, parts.message_end, bytes.len()) {
        return before + 1 + m;
    }
    before + 2 + m
}

// Author, committer and what follows them.
fn count_late(bytes: &[u8], parts: CommitParts, headers: &[usize], before: usize) -> usize
    requires { (before ≤ 1048577) × (length headers.now / width ≤ most_records) }
    ensures { result ≡ before + passing (late_tests bytes.now parts (headers_of headers.now)) }
{
    if !is_range(parts.author_start, parts.author_end, bytes.len()) {
        return before;
    }
    if !is_range(parts.committer_start, parts.committer_end, bytes.len()) {
        return before + 1;
    }
    count_last(bytes, parts, headers, before + 2)
}

// How many records pass before the first that does not: tree, parents, author, committer, encoding, headers, message.
fn count_all(
    bytes: &[u8],
    h: usize,
    parts: CommitParts,
    parents: &[usize],
    headers: &[usize],
) -> usize
    requires parents_len_bound { length parents.now ≤ most_records }
    requires width_len_bound { length headers.now / width ≤ most_records }
    ensures { result ≡ passing (tests h bytes.now parts parents.now (headers_of headers.now)) }
{
    if !is_id(bytes, h, parts.tree) {
        return 0;
    }
    let i = count_ids(bytes, h, parents);
    if i < parents.len() {
        return i + 1;
    }
    count_late(bytes, parts, headers, parents.len() + 1)
}

// Refusals 1, 2 and 10, which writing into so much room and measuring (with no room) share.
pub fn check_commit(
    bytes: &[u8],
    h: usize,
    parts: CommitParts,
    parents: &[usize],
    headers: &[usize],
    room: usize,
) -> Verdict
    ensures { result ≡ checked h bytes.now parts parents.now headers.now room }
{
    let n = parents.len();
    let m = headers.len() / HEADER_WIDTH;
    match bounds(h, longer(bytes.len(), room), longer(n, m)) {
        Err(v) => v,
        Ok(()) => {
            let k = count_all(bytes, h, parts, parents, headers);
            if k < n + 5 + m {
                return Verdict {
                    number: BAD_RECORD,
                    place: k,
                    ..FINE
                };
            }
            FINE
        }
    }
}
