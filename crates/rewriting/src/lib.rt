// How often an object has to be read and written again until nothing changes: theorems over the definitions of the layers below, and no code
// (specs/Demand.antt states them).
#![tactic(auto)]
