// The second and the third demand, each read in one place: theorems over the layers below, and no code.
#![tactic(auto)]
