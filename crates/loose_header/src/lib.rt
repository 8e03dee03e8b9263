// The header of a loose object, as `loose_header` of the Rust's encode.rs (docs/FORMAT.md, "Loose headers").
#![tactic(auto)]

ghost use Rattle.std.specs.Prelude.{◌≡◌, ◌≤◌, length, take};
ghost use Rattle.ground.specs.Verdict.{stored};
ghost use Rattle.loose_header.specs.Header.{kind_word, decimal_text, loose_header, header_answer};

use ground::{Answer, DONE, FINE, NO_MODE_OR_KIND, Verdict};

// The word of an object kind: the first len of its letters; none where the number is no kind.
#[derive(Clone, Copy)]
struct Word {
    letters: [u8; 6],
    len: usize,
}

fn kind_word(kind: usize) -> Word
    ensures { (result.len ≡ length (kind_word kind)) × (result.len ≤ 6) × (length result.letters ≡ 6) × (take result.len result.letters ≡ kind_word kind) }
{
    if kind == 1 {
        return Word {
            letters: *b"commit",
            len: 6,
        };
    }
    if kind == 2 {
        return Word {
            letters: *b"tree\0\0",
            len: 4,
        };
    }
    if kind == 3 {
        return Word {
            letters: *b"blob\0\0",
            len: 4,
        };
    }
    if kind == 4 {
        return Word {
            letters: *b"tag\0\0\0",
            len: 3,
        };
    }
    Word {
        letters: *b"\0\0\0\0\0\0",
        len: 0,
    }
}

// The decimal digits of a number: those of the text from a place on, with 0 before them. A buffer with its start, since the text is made without a heap.
#[derive(Clone, Copy)]
pub struct Decimal {
    pub text: [u8; 20],
    pub at: usize,
}

pub fn decimal_of(n: u64) -> Decimal
    ensures { result ≡ decimal_text n }
{
    let mut text = [0u8; 20];
    let mut at: usize = 20;
    let mut rest = n;
    while 10 <= rest {
        at -= 1;
        text[at] = b'0' + (rest % 10) as u8;
        rest /= 10;
    }
    at -= 1;
    text[at] = b'0' + rest as u8;
    Decimal { text, at }
}

// Writes the header of a loose object: kind word, space, decimal size, NUL. Kinds: 1 commit, 2 tree, 3 blob, 4 tag.
pub fn loose_header(kind: usize, size: u64, out: &mut [u8]) -> Answer
    ensures value { result ≡ header_answer kind size (length out.old) }
    ensures out_after { out.new ≡ stored (header_answer kind size (length out.old)).verdict (loose_header kind size) out.old }
{
    let word = kind_word(kind);
    let n = word.len;
    if n == 0 {
        return Answer {
            verdict: Verdict {
                number: NO_MODE_OR_KIND,
                ..FINE
            },
            count: 0,
        };
    }
    let d = decimal_of(size);
    let from = d.at;
    let next = n + 1;
    let need = next + (20 - from) + 1;
    let a = output::fit(
        out.len(),
        Answer {
            verdict: FINE,
            count: need,
        },
    );
    let number = a.verdict.number;
    if number != DONE {
        return a;
    }
    let letters = word.letters;
    let digits = d.text;
    output::put_ended(out, 0, &letters[..n], b' ');
    output::put_ended(out, next, &digits[from..20], 0);
    a
}
