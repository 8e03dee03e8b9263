// Writing pieces of varying length to a lent output: what stands for the Rust's `io::Write` (docs/FORMAT.md, "Writing").
#![tactic(auto)]

ghost use Rattle.std.specs.Prelude.{◌≡◌, [], ◌∷◌, ◌++◌};
ghost use Rattle.std.proofs.lemmas.List.Edits.{sets};
ghost use Rattle.output.specs.Output.{fitted};

use ground::{Answer, DONE, FINE, SHORT_OUTPUT, Verdict};

// Stores a piece at a place, as far as there is room.
pub fn put(out: &mut [u8], at: usize, piece: &[u8])
    ensures { out.new ≡ sets out.old at piece.now }
{
    if out.len() <= at {
        return;
    }
    let n = piece.len().min(out.len() - at);
    // By index: `copy_from_slice` would need memmove of whoever links the library.
    for k in 0..n {
        out[at + k] = piece[k];
    }
}

// Stores a piece and one byte after it, as far as there is room.
pub fn put_ended(out: &mut [u8], at: usize, piece: &[u8], last: u8)
    ensures { out.new ≡ sets out.old at (piece.now ++ last ∷ []) }
{
    put(out, at, piece);
    let n = piece.len();
    if at < out.len() && n < out.len() - at {
        out[at + n] = last;
    }
}

// Refusal 8: the answer of a call that would write, where the output is too short for what it counts.
#[tactic(auto, unfolding(crate::specs::Output::fitted))]
pub fn fit(room: usize, a: Answer) -> Answer
    ensures { result ≡ fitted room a }
{
    if a.verdict.number != DONE || a.count <= room {
        return a;
    }
    Answer {
        verdict: Verdict {
            number: SHORT_OUTPUT,
            place: a.count,
            ..FINE
        },
        count: 0,
    }
}
