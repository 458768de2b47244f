// What it is for an area to read back, in plain terms: definitions and theorems alone.

#![tactic(auto)]
