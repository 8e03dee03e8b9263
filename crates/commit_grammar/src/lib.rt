// That reading accepts exactly the commits by the grammar, and what it refuses: theorems, no code.
#![tactic(auto)]
