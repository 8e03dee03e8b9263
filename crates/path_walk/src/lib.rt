// A path walked along from an id: one component at a time until none is left, and what it leads to (docs/FORMAT.md, "Paths").
// In the Rust `lookup_entry` of src/tree/ref_iter.rs.
#![tactic(auto)]

ghost use Rattle.std.specs.Prelude.{◌≡◌, length};
ghost use Rattle.component.specs.Component.{pieces, components};
ghost use Rattle.path_walk.specs.Reach.{spot_along, SpotInside, missed, taken_from, reached_by};

use component::is_path;
use ground::{FINE, NO_PATH, NOT_THERE, Verdict};
use output::put;
use path_step::step_to;
use scan::count_to;

// The answer: the mode and the id of the entry that the path leads to, by value; on a refusal mode and size are 0.
#[derive(Clone, Copy)]
pub struct Followed {
    pub verdict: Verdict,
    pub mode: usize,
    pub id: [u8; 32],
    pub size: usize,
}

// One component is looked up, and the rest of the path is followed from what was found.
fn walk(s: &[u8], h: usize, id: &[u8], path: &[u8]) -> Option<(usize, usize)>
    ensures { result ≡ spot_along h s.now id.now (pieces path.now) }
{
    let n = count_to(path, b'/');
    let spot = step_to(s, h, id, &path[..n]);
    if n == path.len() {
        return spot;
    }
    match spot {
        None => None,
        Some((_, at)) => {
            let end = at + h;
            let rest = n + 1;
            walk(s, h, &s[at..end], &path[rest..])
        }
    }
}

// A refusal: no mode, no id.
fn missing(number: usize) -> Followed
    ensures { result ≡ missed number }
{
    let id = [0u8; 32];
    Followed {
        verdict: Verdict { number, ..FINE },
        mode: 0,
        id,
        size: 0,
    }
}

// What a spot of the bundle says, the id taken out of it.
fn taken(s: &[u8], h: usize, spot: Option<(usize, usize)>) -> Followed
    requires { SpotInside h (length s.now) spot }
    ensures { result ≡ taken_from h s.now spot }
{
    match spot {
        None => missing(NOT_THERE),
        Some((mode, at)) => {
            let mut id = [0u8; 32];
            let end = at + h;
            put(&mut id, 0, &s[at..end]);
            Followed {
                verdict: FINE,
                mode,
                id,
                size: h,
            }
        }
    }
}

// What a path leads to from an id, for ids of h bytes: 26, then 15. Every run of bytes is taken.
pub fn walk_path(s: &[u8], h: usize, id: &[u8], path: &[u8]) -> Followed
    ensures { result ≡ reached_by h s.now id.now (components path.now) }
{
    if path.len() == 0 {
        return missing(NOT_THERE);
    }
    if is_path(path) {
        return taken(s, h, walk(s, h, id, path));
    }
    missing(NO_PATH)
}
