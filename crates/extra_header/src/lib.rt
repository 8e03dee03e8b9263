// Extra headers, folded or on one line (docs/FORMAT.md, "Commits"; Rust: src/parse.rs).
#![tactic(auto)]

ghost use Rattle.std.specs.Prelude.{◌≡◌};
ghost use Rattle.extra_header.specs.Extra.{fold_end, extra_at, folded_form};

use header::HeaderRecord;
use scan::{count_to, find_byte};

// The place after the lines from a place on that start with a space; the place itself where the last of them has no LF.
fn fold_end(s: &[u8], start: usize) -> usize
    ensures { result ≡ fold_end s.now start }
{
    let mut at = start;
    while at < s.len() && s[at] == b' ' {
        let lf = find_byte(s, at + 1, b'\n');
        if s.len() <= lf {
            return start;
        }
        at = lf + 1;
    }
    at
}

// The extra header at a place, tried first as folded, then as one line. A blank line is known by its LF, before a space is sought behind it.
pub fn extra_at(s: &[u8], at: usize) -> Option<(HeaderRecord, usize)>
    ensures { result ≡ extra_at s.now at }
{
    let lf = find_byte(s, at, b'\n');
    if lf <= at {
        return None;
    }
    let space = find_byte(s, at, b' ');
    if space <= at || lf <= space || s.len() <= lf {
        return None;
    }
    let value = space + 1;
    let rest = lf + 1;
    let end = fold_end(s, rest);
    if rest < end {
        return Some((
            HeaderRecord {
                name_start: at,
                name_end: space,
                value_start: value,
                value_end: end,
                mark: 1,
            },
            end,
        ));
    }
    Some((
        HeaderRecord {
            name_start: at,
            name_end: space,
            value_start: value,
            value_end: lf,
            mark: 0,
        },
        rest,
    ))
}

// Whether a value is folded: a first line and one or more that start with a space, each with its LF, and nothing after.
pub fn is_folded(v: &[u8]) -> bool
    ensures { result ≡ folded_form v.now }
{
    let n = count_to(v, b'\n');
    if v.len() <= n {
        return false;
    }
    let rest = n + 1;
    let end = fold_end(v, rest);
    rest < end && end == v.len()
}
