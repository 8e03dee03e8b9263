// The first demand, read in one place: theorems over the layers below, and no code.
#![tactic(auto)]
