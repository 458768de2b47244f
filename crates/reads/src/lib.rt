// Theorems only: what a lookup touches of a section.
#![tactic(auto)]
