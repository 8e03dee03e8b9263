// Theorems over importing, and no code (specs/Importing.antt, specs/Back.antt).
#![tactic(auto)]
