// The worked examples and each number in its case, as computed tables, and no code.
#![tactic(auto)]
