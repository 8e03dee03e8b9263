// Commits written and read: theorems over the definitions of the layers below, and no code (specs/Round.antt has what they speak of).
#![tactic(auto)]
