// The section as bytes that are written from key groups, read back: definitions and theorems alone.

#![tactic(auto)]
