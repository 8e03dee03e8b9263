// The form of a bundle as a grammar, joined to its reading both ways: theorems over the definitions of `frame` and `bundle`, and no code
// (specs/Grammar.antt states them).
#![tactic(auto)]
