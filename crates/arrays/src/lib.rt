// The arrays of the border's answers, as a computed table, and no code.
#![tactic(auto)]
