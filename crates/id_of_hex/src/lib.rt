// An id from its hex digits: a commit names ids by digits, a tree has their bytes (docs/FORMAT.md, "Hex").
#![tactic(auto)]

ghost use Rattle.std.specs.Prelude.{◌≡◌, true, ◌/◌, ◌≤◌, length};
ghost use Rattle.std.proofs.lemmas.List.Edits.{sets};
ghost use Rattle.ground.specs.Verdict.{stored};
ghost use Rattle.hex_digits.specs.Hex.{is_hex};
ghost use Rattle.id_of_hex.specs.Id.{bytes_of, halved, digits_read, id_answer};

use ground::{Answer, BAD_RECORD, DONE, FINE, Verdict, bounds};
use hex_digits::{hex_digit, is_hex};
use output::fit;

// Half of an even number, and 0 for an odd one.
#[tactic(auto, unfolding(crate::specs::Id::halved))]
fn half(n: usize) -> usize
    ensures { result ≡ halved n }
{
    if n % 2 == 0 { n / 2 } else { 0 }
}

// How many bytes the digits say; 10 where one is no digit.
#[tactic(auto, unfolding(crate::specs::Id::digits_read))]
fn read_digits(digits: &[u8]) -> Answer
    ensures { result ≡ digits_read digits.now }
{
    if is_hex(digits) {
        return Answer {
            verdict: FINE,
            count: digits.len() / 2,
        };
    }
    Answer {
        verdict: Verdict {
            number: BAD_RECORD,
            ..FINE
        },
        count: 0,
    }
}

// Stores the bytes that the digits say: all are digits, and there is room.
fn put_bytes(out: &mut [u8], digits: &[u8])
    requires { (is_hex digits.now ≡ true) × (length digits.now / 2 ≤ length out.old) }
    ensures { out.new ≡ sets out.old 0 (bytes_of digits.now) }
{
    // By index: the slice's contract says nothing of the elements that `iter_mut` writes.
    for i in 0..digits.len() / 2 {
        let high = hex_digit(digits[2 * i]);
        let low = hex_digit(digits[2 * i + 1]);
        out[i] = high * 16 + low;
    }
}

// The id that 2H hex digits of either case say.
pub fn id_of_hex(digits: &[u8], out: &mut [u8]) -> Answer
    ensures value { result ≡ id_answer digits.now (length out.old) }
    ensures out_after { out.new ≡ stored (id_answer digits.now (length out.old)).verdict (bytes_of digits.now) out.old }
{
    match bounds(half(digits.len()), out.len(), 0) {
        Err(v) => {
            return Answer {
                verdict: v,
                count: 0,
            };
        }
        Ok(()) => {}
    }
    let a = fit(out.len(), read_digits(digits));
    let number = a.verdict.number;
    if number != DONE {
        return a;
    }
    put_bytes(out, digits);
    a
}
