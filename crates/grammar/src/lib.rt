// What a commit is, written out from Git's format: definitions, no code.
#![tactic(auto)]
