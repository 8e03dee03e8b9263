// A mode read and written: theorems over the definitions of `mode`, and no code.
#![tactic(auto)]
