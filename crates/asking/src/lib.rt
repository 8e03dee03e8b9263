// What the words of a command line ask where they are `[sha256] [1|2]`.
#![tactic(auto)]

ghost use Rattle.std.specs.Prelude.{◌≡◌};
ghost use Rattle.asking.specs.Asking.{asked_from, asked_of};

use words::{id_length, is_word, rule_set, word_at};

// The length of ids, the rule set, and where the input starts behind the words and the empty line.
#[derive(Clone, Copy)]
pub struct Asked {
    pub h: usize,
    pub rules: u16,
    pub from: usize,
}

// The rule set that the words from a place on say: 2 without a word, 0 for more than one.
fn set_asked(s: &[u8], h: usize, first: usize) -> Asked
    ensures { result ≡ asked_from s.now h first }
{
    let word = word_at(s, first);
    let next = word.next;
    if is_word(s, first, b"") {
        let rules = 2;
        return Asked {
            h,
            rules,
            from: next,
        };
    }
    let blank = word_at(s, next);
    let from = blank.next;
    if is_word(s, next, b"") {
        let rules = rule_set(s, first);
        return Asked { h, rules, from };
    }
    let rules = 0;
    Asked { h, rules, from }
}

// What the words ask: any other word than 1 and 2 is rule set 0, which every call refuses.
pub fn ask(s: &[u8]) -> Asked
    ensures { result ≡ asked_of s.now }
{
    let ids = id_length(s);
    set_asked(s, ids.h, ids.next)
}
