// What the programs read from standard input, and what they say on standard output: bytes, an answer's bytes or its refusal in one line.
// A read or a write that fails is the caller's error.
#![tactic(auto)]

ghost use Rattle.std.specs.Prelude.{◌≡◌, ◌==◌, ◌≤◌, IfOk, IfSome, if◌then◌else◌, length};

use ground::{Answer, BOUND, DONE, FINE, Verdict};
use std::io;
use std::io::Read;

// Reads until the lent bytes are full or the input ends; how many were read.
pub fn read_full(input: &mut impl Read, bytes: &mut [u8]) -> io::Result<usize>
    ensures { IfOk result (λ n. n ≤ length bytes.new) }
{
    let mut done: usize = 0;
    while done < bytes.len() {
        let n = input.read(&mut bytes[done..])?;
        if n == 0 {
            return Ok(done);
        }
        done += n;
    }
    Ok(done)
}

// How many bytes the input has, which are read to the front of the lent ones; none where it has more than those.
pub fn read_whole(input: &mut impl Read, bytes: &mut [u8]) -> io::Result<Option<usize>>
    ensures { IfOk result (λ read. IfSome read (λ n. n ≤ length bytes.new)) }
{
    let mut more = [0u8; 1];
    let n = read_full(input, bytes)?;
    if input.read(&mut more)? != 0 {
        return Ok(None);
    }
    Ok(Some(n))
}

pub fn say(rt: &impl Print, s: &[u8]) -> io::Result<()> {
    rt.write_all(s)
}

// That an answer has a verdict of no refusal, or the refusal.
pub fn done(v: Verdict) -> Result<(), Verdict>
    ensures { result ≡ (if v.number == 0 then Ok tt else Err v) }
{
    if v.number == DONE { Ok(()) } else { Err(v) }
}

// A refusal: its number, place and part.
pub fn say_refused(rt: &impl Print, v: Verdict) -> io::Result<()> {
    println!(rt; "refused {} at {} part {}", v.number, v.place, v.part)
}

// The refusal of an input that is longer than it may be.
pub fn say_too_long(rt: &impl Print) -> io::Result<()> {
    say_refused(
        rt,
        Verdict {
            number: BOUND,
            ..FINE
        },
    )
}

// The first bytes of an output, as many as an answer counts, or its refusal.
pub fn say_answer(rt: &impl Print, a: Answer, out: &[u8]) -> io::Result<()> {
    match done(a.verdict) {
        Ok(()) => say(rt, out.get(..a.count).unwrap_or_default()),
        Err(v) => say_refused(rt, v),
    }
}
