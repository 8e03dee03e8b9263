// The values of a commit that is written: a header's, folded where it is not yet, and an encoding (docs/FORMAT.md, "Commit writing").
#![tactic(auto)]

ghost use Rattle.std.specs.Prelude.{◌≡◌, ◌+◌, ◌*◌, ◌<◌, length, set};
ghost use Rattle.std.proofs.lemmas.List.Edits.{sets};
ghost use Rattle.grammar.specs.Grammar.{given};
ghost use Rattle.commit_value.specs.Fold.{fold_value, value_at};
ghost use Rattle.commit_value.specs.Encoding.{encoding_refusal};

use ground::{DONE, EMPTY_ENCODING, LF_IN_ENCODING, MOST_BYTES};
use output::put;
use scan::count_to;

// The last place at which a value is written.
const MOST_PLACE: usize = 4611686018427387904;

// Stores a byte where it has room.
pub fn put_byte(out: &mut [u8], at: usize, b: u8)
    ensures { out.new ≡ set out.old at b }
{
    if at < out.len() {
        out[at] = b;
    }
}

// Stores a value with a space before each line but the first, and an LF at the end.
fn put_folded(out: &mut [u8], at: usize, v: &[u8]) -> usize
    requires { at + (2 * length v.now + 1) < 18446744073709551616 }
    ensures value { result ≡ at + length (fold_value v.now) }
    ensures out_after { out.new ≡ sets out.old at (fold_value v.now) }
{
    let mut to = at;
    let mut prev = 0;
    for b in v {
        if prev == b'\n' {
            put_byte(out, to, b' ');
            to += 1;
        }
        put_byte(out, to, *b);
        to += 1;
        prev = *b;
    }
    if prev != b'\n' {
        put_byte(out, to, b'\n');
        to += 1;
    }
    to
}

// Stores a header's value at a place, a folded one (mark 1) as it stands; nothing where the place or the value is past its bound.
#[tactic(auto, unfolding(crate::specs::Fold::value_at))]
pub fn put_value(out: &mut [u8], at: usize, v: &[u8], mark: usize) -> usize
    ensures value { result ≡ at + length (value_at at mark v.now) }
    ensures out_after { out.new ≡ sets out.old at (value_at at mark v.now) }
{
    if MOST_PLACE < at || MOST_BYTES < v.len() {
        return at;
    }
    if mark == 1 {
        put(out, at, v);
        return at + v.len();
    }
    put_folded(out, at, v)
}

// The number that refuses an encoding's value, or 0.
// 0 for none: `encoding_refusal` of specs/Encoding.antt is a number.
pub fn encoding_fault(v: &[u8]) -> usize
    ensures { result ≡ encoding_refusal (given v.now) }
{
    if v.is_empty() {
        return EMPTY_ENCODING;
    }
    if count_to(v, b'\n') == v.len() {
        return DONE;
    }
    LF_IN_ENCODING
}
