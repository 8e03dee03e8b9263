// What strict reading says of a name (docs/FORMAT.md, "Strict reading").
#![tactic(auto)]

ghost use Rattle.std.specs.Prelude.{◌≡◌, ◌||◌};
ghost use Rattle.ground.specs.Basics.{ascii};
ghost use Rattle.ground.specs.Scan.{same_bytes};
ghost use Rattle.names.specs.Names.{is_reserved, lower, is_dot_git, reserved_number, bare_number};

use free_of::is_free;
use ground::{DONE, DOT_GIT, NAME};
use scan::same_bytes;

// Whether a name is empty, or one of `.`, `..` and `.git`.
fn is_reserved(name: &[u8]) -> bool
    ensures { result ≡ is_reserved name.now }
{
    matches!(name, b"" | b"." | b".." | b".git")
}

// Whether a name is `.git`, each letter in either case.
fn is_dot_git(name: &[u8]) -> bool
    ensures { result ≡ is_dot_git name.now }
{
    name.eq_ignore_ascii_case(b".git")
}

// What is said of a name that has no slash, whether or not it has a NUL: 6, 18 or 0.
#[tactic(auto, unfolding(crate::specs::Names::reserved_number))]
pub fn reserved_number(name: &[u8]) -> usize
    ensures { result ≡ reserved_number name.now }
{
    if is_reserved(name) {
        return NAME;
    }
    if is_dot_git(name) {
        return DOT_GIT;
    }
    DONE
}

// What is said of any name, whether or not it has a NUL: 6, 18 or 0.
pub fn name_number(name: &[u8]) -> usize
    ensures { result ≡ bare_number name.now }
{
    if is_free(name, b'/') {
        return reserved_number(name);
    }
    NAME
}
