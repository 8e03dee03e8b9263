// A name removed from a strict tree object (docs/FORMAT.md, "Edits"). The walk of `edit_walk` measures first and then writes.
#![tactic(auto)]

ghost use Rattle.std.specs.Prelude.{◌≡◌, Ok, ◌≤◌, ◌<◌, length};
ghost use Rattle.ground.specs.Verdict.{most_bytes, stored};
ghost use Rattle.entry.specs.Entry.{as_written};
ghost use Rattle.rules.specs.Rules.{git_rules};
ghost use Rattle.reading.specs.Listing.{tally};
ghost use Rattle.strict.specs.Strict.{strictly};
ghost use Rattle.edit.specs.Table.{remove_from};
ghost use Rattle.edit.specs.Edit.{entries_in, removing, remove_answer, remove_output};

use edit_walk::walk;
use ground::{Answer, FINE, NOT_THERE, SHORT_OUTPUT, Verdict, longer};
use rules::rule_bounds;
use strict::strict_count;

// Removes a name from an object of so many entries: 15, 8, then the walk that writes. Nothing is put, so the walk's mode and id are of no account.
fn remove_counted(
    bytes: &[u8],
    h: usize,
    rules: u16,
    n: usize,
    name: &[u8],
    out: &mut [u8],
) -> Answer
    requires bytes_value { tally 0 (strictly (git_rules rules) h bytes.now) ≡ Ok n }
    requires lt_h { (6 < h) × (length bytes.now ≤ most_bytes) × (length name.now ≤ most_bytes) }
    ensures answer { result ≡ removing (length out.old) name.now (entries_in h bytes.now) }
    ensures out { out.new ≡ stored result.verdict (as_written (remove_from name.now (entries_in h bytes.now))) out.old }
{
    let mut nothing = [0u8; 0];
    let w = walk(bytes, h, n, 0, name, name, true, &mut nothing);
    let used = w.used;
    if w.kept == n {
        return Answer {
            verdict: Verdict {
                number: NOT_THERE,
                ..FINE
            },
            count: 0,
        };
    }
    if out.len() < used {
        return Answer {
            verdict: Verdict {
                number: SHORT_OUTPUT,
                place: used,
                ..FINE
            },
            count: 0,
        };
    }
    walk(bytes, h, n, 0, name, name, true, out);
    Answer {
        verdict: FINE,
        count: used,
    }
}

// Removes a name from a strict object.
pub fn remove_from_tree(bytes: &[u8], h: usize, rules: u16, name: &[u8], out: &mut [u8]) -> Answer
    ensures answer { result ≡ remove_answer rules h bytes.now name.now (length out.old) }
    ensures out { out.new ≡ remove_output rules h bytes.now name.now out.old }
{
    let most = longer(bytes.len(), longer(name.len(), out.len()));
    match rule_bounds(rules, h, most, 0) {
        Err(v) => Answer {
            verdict: v,
            count: 0,
        },
        Ok(()) => match strict_count(bytes, h, rules) {
            Err(w) => Answer {
                verdict: w,
                count: 0,
            },
            Ok(n) => remove_counted(bytes, h, rules, n, name, out),
        },
    }
}
