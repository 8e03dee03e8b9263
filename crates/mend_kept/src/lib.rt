// What is kept of a tree that is mended, by its definition and by the elements that the code sorts: definitions and laws, and no code.
#![tactic(auto)]
