// Theorems only: what a lookup gives of an accepted store.
#![tactic(auto)]
