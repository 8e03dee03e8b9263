// A mended tree: theorems over the definitions of the layers below, and no code (specs/Mending.antt states them).
#![tactic(auto)]
