// A path followed through nested trees of a bundle that is opened for it (docs/FORMAT.md, "Paths").
#![tactic(auto)]

ghost use Rattle.std.specs.Prelude.{◌≡◌, length};
ghost use Rattle.bundle.specs.Bundle.{open_of};
ghost use Rattle.component.specs.Component.{components};
ghost use Rattle.path.specs.Path.{refused_with, follow};
ghost use Rattle.path.specs.Code.{after_open};

use bundle::open_bundle;
use ground::{Verdict, longer, sizes};
use path_walk::{Followed, walk_path};

// A refusal: no mode, no id.
fn refused(verdict: Verdict) -> Followed
    ensures { result ≡ refused_with verdict }
{
    let id = [0u8; 32];
    Followed {
        verdict,
        mode: 0,
        id,
        size: 0,
    }
}

// 2 for the bundle, 24, 25, then the rest.
fn follow_within(s: &[u8], root: &[u8], path: &[u8]) -> Followed
    ensures { result ≡ after_open s.now root.now (components path.now) (open_of s.now (length root.now)) }
{
    match open_bundle(s, root.len()) {
        Err(v) => refused(v),
        Ok(k) => walk_path(s, k.h, root, path),
    }
}

// Follows a path from a root id through the trees of a bundle. Refusals 2, 24, 25, 26, 15.
pub fn follow_path(s: &[u8], root: &[u8], path: &[u8]) -> Followed
    ensures { result ≡ follow s.now root.now path.now }
{
    match sizes(longer(root.len(), path.len()), 0) {
        Err(v) => refused(v),
        Ok(()) => follow_within(s, root, path),
    }
}
