// A strict tree object from the text that `git ls-tree -z` prints, by rule set 1 or 2 (docs/FORMAT.md, "Text"). The memory for the places of
// its records is the call's own.
#![tactic(auto)]

ghost use Rattle.std.specs.Prelude.{◌≡◌, true, ◌≤◌, length};
ghost use Rattle.ground.specs.Verdict.{most_bytes, most_records, id_length, stored};
ghost use Rattle.output.specs.Output.{fitted};
ghost use Rattle.text_import.specs.Import.{texts, imported, counted_of, import_answer};
ghost use Rattle.text_import.specs.Lent.{lent_answer};

use ground::{Answer, FEW_RECORDS, MOST_BYTES, longer};
use rules::rule_bounds;
use text_import::import_lent;

// With room for N records in a list of its own: 4 where there are more. N is a parameter, so no proof computes so long a list.
fn import_own<const N: usize>(text: &[u8], h: usize, rules: u16, out: &mut [u8]) -> Answer
    requires { N ≤ most_records }
    ensures answer { result ≡ lent_answer rules h text.now (length out.old) N }
    ensures out { out.new ≡ stored (lent_answer rules h text.now (length out.old) N).verdict (imported (texts rules h text.now)) out.old }
{
    let mut list = [0u32; N];
    import_lent(text, h, rules, out, &mut list)
}

// With room for all: four mebibytes of the stack. The call of itself is never reached. It is there because the compiler lays no function
// that calls itself into its callers: only a text of many records takes this one's stack.
fn import_large(text: &[u8], h: usize, rules: u16, out: &mut [u8]) -> Answer
    requires { (id_length h ≡ true) × (length text.now ≤ most_bytes) }
    ensures answer { result ≡ fitted (length out.old) (counted_of (texts rules h text.now)) }
    ensures out { out.new ≡ stored (fitted (length out.old) (counted_of (texts rules h text.now))).verdict (imported (texts rules h text.now)) out.old }
{
    if MOST_BYTES < text.len() {
        return import_large(text, h, rules, out);
    }
    import_own::<1048576>(text, h, rules, out)
}

// Imports a text, once its bounds are seen.
fn import_open(text: &[u8], h: usize, rules: u16, out: &mut [u8]) -> Answer
    requires { (id_length h ≡ true) × (length text.now ≤ most_bytes) }
    ensures answer { result ≡ fitted (length out.old) (counted_of (texts rules h text.now)) }
    ensures out { out.new ≡ stored (fitted (length out.old) (counted_of (texts rules h text.now))).verdict (imported (texts rules h text.now)) out.old }
{
    let a = import_own::<1024>(text, h, rules, out);
    let verdict = a.verdict;
    let number = verdict.number;
    if number != FEW_RECORDS {
        return a;
    }
    import_large(text, h, rules, out)
}

// The object of the text's records by rule set 1 or 2; a refusal changes none of the bytes lent. With more than 1,024 records it takes
// four mebibytes of the stack.
pub fn import_tree(text: &[u8], h: usize, rules: u16, out: &mut [u8]) -> Answer
    ensures answer { result ≡ import_answer rules h text.now (length out.old) }
    ensures out { out.new ≡ stored (import_answer rules h text.now (length out.old)).verdict (imported (texts rules h text.now)) out.old }
{
    match rule_bounds(rules, h, longer(text.len(), out.len()), 0) {
        Err(v) => Answer {
            verdict: v,
            count: 0,
        },
        Ok(()) => import_open(text, h, rules, out),
    }
}
