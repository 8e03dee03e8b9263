// Reading, finding and writing put together: theorems over the definitions of the layers below, and no code (specs/Demand.antt states them).
#![tactic(auto)]
