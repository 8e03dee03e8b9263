// A bundle of objects that is well framed and has no id twice: refusals 24 and 25 (docs/FORMAT.md, "Bundles").
#![tactic(auto)]

ghost use Rattle.std.specs.Prelude.{◌≡◌, Some, ◌≤◌, length};
ghost use Rattle.ground.specs.Verdict.{most_bytes};
ghost use Rattle.frame.specs.Frame.{head_of, frames_by};
ghost use Rattle.twice.specs.Ids.{ids_in, repeats};
ghost use Rattle.bundle.specs.Bundle.{open_by, open_of, told, check_of};

use frame::{Header, read_header};
use framed::{ascending, well_framed};
use ground::{FINE, ID_TWICE, NOT_FRAMED, Verdict, sizes};
use twice::id_twice;

// The answer of a check: with a bundle that can be used its H, its rule set and how many objects it has, else zeros.
#[derive(Clone, Copy)]
pub struct Checked {
    pub verdict: Verdict,
    pub h: usize,
    pub rules: usize,
    pub count: usize,
}

// Whether an id stands twice: not where they ascend, which is how a packer writes them.
fn repeated(s: &[u8], k: Header) -> bool
    requires s_value { head_of s.now ≡ Some k }
    requires s_len_bound { length s.now ≤ most_bytes }
    ensures { result ≡ repeats (ids_in k.h s.now (frames_by s.now k)) }
{
    if ascending(s, k.h, k.count, k.from) {
        return false;
    }
    id_twice(s)
}

// Refusals 24 and 25, for ids of n bytes.
fn open_within(s: &[u8], n: usize) -> Result<Header, Verdict>
    requires { length s.now ≤ most_bytes }
    ensures { result ≡ open_by s.now n (head_of s.now) }
{
    match read_header(s) {
        None => Err(Verdict {
            number: NOT_FRAMED,
            ..FINE
        }),
        Some(k) => {
            if n != k.h {
                return Err(Verdict {
                    number: NOT_FRAMED,
                    ..FINE
                });
            }
            if well_framed(s, k.h, k.count, k.from) {
                if repeated(s, k) {
                    return Err(Verdict {
                        number: ID_TWICE,
                        ..FINE
                    });
                }
                return Ok(k);
            }
            Err(Verdict {
                number: NOT_FRAMED,
                ..FINE
            })
        }
    }
}

// Opens a bundle for ids of n bytes: refusals 2, 24, 25.
pub fn open_bundle(s: &[u8], n: usize) -> Result<Header, Verdict>
    ensures { result ≡ open_of s.now n }
{
    match sizes(s.len(), 0) {
        Err(v) => Err(v),
        Ok(()) => open_within(s, n),
    }
}

// What an opening says to a caller.
fn tell(o: Result<Header, Verdict>) -> Checked
    ensures { result ≡ told o }
{
    match o {
        Err(v) => Checked {
            verdict: v,
            h: 0,
            rules: 0,
            count: 0,
        },
        Ok(k) => Checked {
            verdict: FINE,
            h: k.h,
            rules: k.rules as usize,
            count: k.count,
        },
    }
}

// Checks a bundle whole: refusals 2, 24, 25.
pub fn check_bundle(s: &[u8]) -> Checked
    ensures { result ≡ check_of s.now }
{
    match read_header(s) {
        None => tell(open_bundle(s, 0)),
        Some(k) => tell(open_bundle(s, k.h)),
    }
}
