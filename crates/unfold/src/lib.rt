// A header's value, unfolded into lent bytes (docs/FORMAT.md, "Commits"; Rust: any_header_field_multi_line of src/parse.rs).
#![tactic(auto)]

ghost use Rattle.std.specs.Prelude.{◌≡◌, ◌≤◌, length};
ghost use Rattle.std.proofs.lemmas.List.Edits.{sets};
ghost use Rattle.unfold.specs.Unfold.{has_form, skips, plain_of, unfold_answer, unfold_after};

use extra_header::is_folded;
use ground::{Answer, BAD_RECORD, FINE, SHORT_OUTPUT, Verdict, longer, sizes};
use header::{HeaderRecord, well_formed};

// Whether a value has the form that its mark says.
#[tactic(auto, unfolding(crate::specs::Unfold::has_form))]
fn has_form(mark: usize, v: &[u8]) -> bool
    ensures { result ≡ has_form mark v.now }
{
    mark != 1 || is_folded(v)
}

// Whether a byte is left out: in a folded value the one after each LF.
fn skip(mark: usize, prev: u8) -> bool
    ensures { result ≡ skips mark prev }
{
    mark == 1 && prev == b'\n'
}

// Stores a value, unfolded, at the front, as far as there is room, and gives its length: with no room it measures.
fn put_plain(mark: usize, v: &[u8], out: &mut [u8]) -> usize
    ensures value { result ≡ length (plain_of mark v.now) }
    ensures out_after { out.new ≡ sets out.old 0 (plain_of mark v.now) }
{
    let mut prev = 0;
    let mut n = 0;
    for x in v {
        if !skip(mark, prev) {
            if n < out.len() {
                out[n] = *x;
            }
            n += 1;
        }
        prev = *x;
    }
    n
}

// A header's value into the lent bytes: a folded one unfolded, another as it stands. A refusal stores nothing.
pub fn unfold(bytes: &[u8], x: HeaderRecord, out: &mut [u8]) -> Answer
    ensures answer { result ≡ unfold_answer bytes.now x out.old }
    ensures out { out.new ≡ unfold_after bytes.now x out.old }
{
    match sizes(longer(bytes.len(), out.len()), 0) {
        Err(verdict) => Answer { verdict, count: 0 },
        Ok(()) => {
            if well_formed(x, bytes.len()) {
                let from = x.value_start;
                let to = x.value_end;
                let mark = x.mark;
                let v = &bytes[from..to];
                if has_form(mark, v) {
                    let need = put_plain(mark, v, &mut []);
                    if out.len() < need {
                        return Answer {
                            verdict: Verdict {
                                number: SHORT_OUTPUT,
                                place: need,
                                ..FINE
                            },
                            count: 0,
                        };
                    }
                    put_plain(mark, v, out);
                    return Answer {
                        verdict: FINE,
                        count: need,
                    };
                }
                return Answer {
                    verdict: Verdict {
                        number: BAD_RECORD,
                        ..FINE
                    },
                    count: 0,
                };
            }
            Answer {
                verdict: Verdict {
                    number: BAD_RECORD,
                    ..FINE
                },
                count: 0,
            }
        }
    }
}
