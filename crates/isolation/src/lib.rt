// What a path gives hangs on nothing but the objects that it meets: theorems over the contract of `path::follow_path`, and no code
// (specs/Isolation.antt states them).
#![tactic(auto)]
