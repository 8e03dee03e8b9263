// The first demand of the calls on commits: theorems over the layers below, and no code.
#![tactic(auto)]
