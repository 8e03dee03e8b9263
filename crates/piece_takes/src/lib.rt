// What is taken of a piece at once is what its bytes come to one after the other: laws for `pieces` over the definitions of the layers below, and no code.
#![tactic(auto)]
