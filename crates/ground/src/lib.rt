// What every layer stands on: the verdict and the two bounds (docs/FORMAT.md, "Numbers" and "Bounds").
#![tactic(auto)]

ghost use Rattle.std.specs.Prelude.{◌≡◌, max, min, get_or};
ghost use Rattle.ground.specs.Verdict.{size_gate, gate_of};

// The bound of every lent byte buffer, and of every lent list in records.
pub const MOST_BYTES: usize = 1073741824;

pub const MOST_RECORDS: usize = 1048576;

// The numbers that a call answers with. They are numbers, and no enum, since C is lent them, and Demand2, Demand3 and Sentences of `demands` speak of them.
pub const DONE: usize = 0;

pub const ID_LENGTH: usize = 1;

pub const BOUND: usize = 2;

pub const BROKEN_ENTRY: usize = 3;

pub const FEW_RECORDS: usize = 4;

pub const MODE_TEXT: usize = 5;

pub const NAME: usize = 6;

pub const ORDER: usize = 7;

pub const SHORT_OUTPUT: usize = 8;

pub const NUL_IN_NAME: usize = 9;

pub const BAD_RECORD: usize = 10;

pub const COMMIT_FIELD: usize = 11;

pub const ACTOR: usize = 12;

pub const EMPTY_ENCODING: usize = 13;

pub const LF_IN_ENCODING: usize = 14;

pub const NOT_THERE: usize = 15;

pub const LONG_NAME: usize = 16;

pub const SAME_NAME: usize = 17;

pub const DOT_GIT: usize = 18;

pub const RULE_SET: usize = 19;

pub const BAD_TEXT: usize = 20;

pub const NO_MODE_OR_KIND: usize = 23;

pub const NOT_FRAMED: usize = 24;

pub const ID_TWICE: usize = 25;

pub const NO_PATH: usize = 26;

pub const TOO_DEEP: usize = 27;

pub const NO_TREE: usize = 28;

// The parts of an entry that BROKEN_ENTRY tells apart.
pub const NO_MODE: usize = 1;

pub const NO_NUL: usize = 2;

pub const CUT_ID: usize = 3;

// A number of the table with its place, and with number 3 the part of the entry that cannot be read, else 0;
// number 0 with place 0 is "done".
#[derive(Clone, Copy)]
pub struct Verdict {
    pub number: usize,
    pub place: usize,
    pub part: usize,
}

// Done. Every other verdict is this one with a number, and where it has them a place and a part: `Verdict { number: BOUND, ..FINE }`.
pub const FINE: Verdict = Verdict {
    number: DONE,
    place: 0,
    part: 0,
};

// The answer of a call that counts records or bytes: the count is 0 on a refusal. Verdict and count stand side by side, and not as a `Result`,
// since C is lent both, and the theorems of `demands` and `call` speak of the verdict of every answer.
#[derive(Clone, Copy)]
pub struct Answer {
    pub verdict: Verdict,
    pub count: usize,
}

// Refusal 2: the longest lent byte buffer or the longest lent list is over its bound.
#[tactic(auto, unfolding(crate::specs::Verdict::size_gate))]
pub fn sizes(bytes: usize, records: usize) -> Result<(), Verdict>
    ensures { result ≡ size_gate bytes records }
{
    if MOST_BYTES < bytes || MOST_RECORDS < records {
        return Err(Verdict {
            number: BOUND,
            ..FINE
        });
    }
    Ok(())
}

// Refusals 1 and 2: the one decision before any call with an id length.
pub fn bounds(h: usize, bytes: usize, records: usize) -> Result<(), Verdict>
    ensures { result ≡ gate_of h bytes records }
{
    if h == 20 || h == 32 {
        return sizes(bytes, records);
    }
    Err(Verdict {
        number: ID_LENGTH,
        ..FINE
    })
}

// The larger of two lengths, for a call that is lent two buffers or two lists.
pub fn longer(a: usize, b: usize) -> usize
    ensures { result ≡ max a b }
{
    if a < b { b } else { a }
}

// The smaller of two lengths.
pub fn shorter(a: usize, b: usize) -> usize
    ensures { result ≡ min a b }
{
    if a < b { a } else { b }
}

// The byte at a place, or 0 past the end.
pub fn byte_at(s: &[u8], i: usize) -> u8
    ensures { result ≡ get_or s.now i 0 }
{
    if i < s.len() {
        return s[i];
    }
    0
}
