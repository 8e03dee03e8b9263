// A public call by its own contract, and what the first demand says of it: definitions and laws, and no code.
#![tactic(auto)]
