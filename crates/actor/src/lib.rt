// The actor form of an author's or committer's value (docs/FORMAT.md, "Commits"; Rust: the signature parser that src/parse.rs calls).
#![tactic(auto)]

ghost use Rattle.std.specs.Prelude.{◌≡◌};
ghost use Rattle.actor.specs.Actor.{Digit, Name, Address, in_class, all_of, two_digits, is_name, is_named, is_zone, is_time, is_addressed, is_actor};

use scan::count_to;

// From `0` to `9`.
#[tactic(auto, unfolding(crate::specs::Actor::in_class))]
fn is_digit(b: u8) -> bool
    ensures { result ≡ in_class Digit b }
{
    b.is_ascii_digit()
}

// None of `<`, `>`, NUL and LF.
#[tactic(auto, unfolding(crate::specs::Actor::in_class))]
fn is_plain(b: u8) -> bool
    ensures { result ≡ in_class Name b }
{
    !matches!(b, b'<' | b'>' | 0 | b'\n')
}

// None of the four, and no space.
#[tactic(auto, unfolding(crate::specs::Actor::in_class))]
fn is_solid(b: u8) -> bool
    ensures { result ≡ in_class Address b }
{
    b != b' ' && is_plain(b)
}

// Whether each byte is a digit.
fn are_digits(s: &[u8]) -> bool
    ensures { result ≡ all_of Digit s.now }
{
    s.iter().all(|b| is_digit(*b))
}

// Whether each byte may stand in a name.
fn are_plain(s: &[u8]) -> bool
    ensures { result ≡ all_of Name s.now }
{
    s.iter().all(|b| is_plain(*b))
}

// Whether each byte may stand in an address.
fn are_solid(s: &[u8]) -> bool
    ensures { result ≡ all_of Address s.now }
{
    s.iter().all(|b| is_solid(*b))
}

// One or more bytes of a name, neither starting nor ending with a space.
#[tactic(auto, unfolding(crate::specs::Actor::is_name))]
fn is_name(m: &[u8]) -> bool
    ensures { result ≡ is_name m.now }
{
    !m.is_empty() && m[0] != b' ' && m[m.len() - 1] != b' ' && are_plain(m)
}

// A name and one space.
#[tactic(auto, unfolding(crate::specs::Actor::is_named))]
fn is_named(p: &[u8]) -> bool
    ensures { result ≡ is_named p.now }
{
    match p {
        [name @ .., b' '] => is_name(name),
        _ => false,
    }
}

// The number that two digits write.
fn two_digits(a: u8, b: u8) -> u16
    ensures { result ≡ two_digits a b }
{
    u16::from(a.saturating_sub(b'0')) * 10 + u16::from(b.saturating_sub(b'0'))
}

// `+` or `-`, then hours to 14 and minutes to 59 in two digits each.
#[tactic(auto, unfolding(crate::specs::Actor::is_zone))]
fn is_zone(z: &[u8]) -> bool
    ensures { result ≡ is_zone z.now }
{
    z.len() == 5
        && matches!(z[0], b'+' | b'-')
        && are_digits(&z[1..])
        && two_digits(z[1], z[2]) <= 14
        && two_digits(z[3], z[4]) <= 59
}

// One to ten digits, a space and a zone.
#[tactic(auto, unfolding(crate::specs::Actor::is_time))]
fn is_time(d: &[u8]) -> bool
    ensures { result ≡ is_time d.now }
{
    let n = count_to(d, b' ');
    0 < n && n <= 10 && n < d.len() && are_digits(&d[..n]) && is_zone(&d[n + 1..])
}

// An address up to `>`, a space and a time.
#[tactic(auto, unfolding(crate::specs::Actor::is_addressed))]
fn is_addressed(a: &[u8]) -> bool
    ensures { result ≡ is_addressed a.now }
{
    let n = count_to(a, b'>');
    0 < n && 2 <= a.len() - n && a[n + 1] == b' ' && are_solid(&a[..n]) && is_time(&a[n + 2..])
}

// Whether a value has the actor form.
#[tactic(auto, unfolding(crate::specs::Actor::is_actor))]
pub fn is_actor(v: &[u8]) -> bool
    ensures { result ≡ is_actor v.now }
{
    let n = count_to(v, b'<');
    n < v.len() && is_named(&v[..n]) && is_addressed(&v[n + 1..])
}
