// A check in pieces answers as the strict reader does on the whole object: theorems over the definitions of `arriving`, and no code
// (specs/Claims.antt states them).
#![tactic(auto)]
