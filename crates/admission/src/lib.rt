// Acceptance: definitions and theorems alone.

#![tactic(auto)]
