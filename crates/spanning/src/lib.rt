// Theorems only: what a span gives of an accepted store.
#![tactic(auto)]
