// The hex digits of an id: a tree has ids as bytes, a commit names them by digits (docs/FORMAT.md, "Hex").
#![tactic(auto)]

ghost use Rattle.std.specs.Prelude.{◌≡◌, ◌*◌, ◌≤◌, length};
ghost use Rattle.std.proofs.lemmas.List.Edits.{sets};
ghost use Rattle.ground.specs.Verdict.{counted, stored};
ghost use Rattle.hex_of_id.specs.Hex.{hex_of, hex_answer};

use ground::{Answer, DONE, FINE, bounds};
use hex_letter::digit_of;
use output::fit;

// How many digits the bytes of an id have.
fn count_digits(id: &[u8]) -> Answer
    requires { length id.now ≤ 32 }
    ensures { result ≡ counted (2 * length id.now) }
{
    Answer {
        verdict: FINE,
        count: 2 * id.len(),
    }
}

// Stores the digits of an id: there is room.
fn put_hex(out: &mut [u8], id: &[u8])
    requires { 2 * length id.now ≤ length out.old }
    ensures { out.new ≡ sets out.old 0 (hex_of id.now) }
{
    for (i, b) in id.iter().enumerate() {
        out[2 * i] = digit_of(*b / 16);
        out[2 * i + 1] = digit_of(*b);
    }
}

// The 2H hex digits of an id, in lower case.
pub fn hex_of_id(id: &[u8], out: &mut [u8]) -> Answer
    ensures value { result ≡ hex_answer id.now (length out.old) }
    ensures out_after { out.new ≡ stored (hex_answer id.now (length out.old)).verdict (hex_of id.now) out.old }
{
    match bounds(id.len(), out.len(), 0) {
        Err(v) => {
            return Answer {
                verdict: v,
                count: 0,
            };
        }
        Ok(()) => {}
    }
    let a = fit(out.len(), count_digits(id));
    let number = a.verdict.number;
    if number != DONE {
        return a;
    }
    put_hex(out, id);
    a
}
