// What a difference between two trees is like: theorems over the walk of the crate `difference` and over the contract of its call, and no code
// (specs/Differing.antt and specs/Exactly.antt state them).
#![tactic(auto)]
