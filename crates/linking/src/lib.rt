// Theorems only: two linkers that agree.
#![tactic(auto)]
