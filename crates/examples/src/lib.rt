// The worked examples, each number in its case and the mode texts of records, computed: theorems over the layers below, and no code.
#![tactic(auto)]
