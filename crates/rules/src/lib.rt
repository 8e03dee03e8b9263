// The rules of strict reading, by rule set: what is said of a mode text, of a name, and before a call begins
// (docs/FORMAT.md, "Strict reading"). Every layer that has to keep them asks here.
#![tactic(auto)]

ghost use Rattle.std.specs.Prelude.{◌≡◌};
ghost use Rattle.rules.specs.Rules.{is_text, modes_of};
ghost use Rattle.rules.specs.Gate.{rule_gate};
ghost use Rattle.rules.specs.Code.{is_group};

use ground::{FINE, RULE_SET, Verdict, bounds};
use mode_table::written_mode;
pub use names::{name_number, reserved_number};
use scan::same_bytes;

// Refusals 1, 19 and 2: whether a call with a rule set may begin.
pub fn rule_bounds(rules: u16, h: usize, bytes: usize, records: usize) -> Result<(), Verdict>
    ensures { result ≡ rule_gate rules h bytes records }
{
    if (rules == 1) | (rules == 2) {
        return bounds(h, bytes, records);
    }
    match bounds(h, 0, 0) {
        Ok(()) => Err(Verdict {
            number: RULE_SET,
            ..FINE
        }),
        Err(v) => Err(v),
    }
}

// Whether a text is the mode that rule set 1 has besides the five.
fn is_group(rules: u16, text: &[u8]) -> bool
    ensures { result ≡ is_group rules text.now }
{
    (rules == 1) & same_bytes(text, b"100664")
}

// Whether a text is one of the rule set's mode texts.
pub fn mode_permitted(rules: u16, text: &[u8]) -> bool
    ensures { result ≡ is_text (modes_of rules) text.now }
{
    match written_mode(text) {
        None => is_group(rules, text),
        Some(_) => true,
    }
}
