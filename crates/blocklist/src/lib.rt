// Theorems only: what filling a list of block records gives, and what is found in it.
#![tactic(auto)]
