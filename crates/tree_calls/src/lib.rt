// The first demand of the calls on trees: theorems over the layers below, and no code.
#![tactic(auto)]
