// Edits of a strict tree object answer as the table from names to mode and id does: theorems over the definitions of the layers below, and no code
// (specs/Demand.antt states them).
#![tactic(auto)]
