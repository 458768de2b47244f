// The records of the blocks beside the arena: definitions and theorems alone.

#![tactic(auto)]
