// What the entries of building ask, in plain terms: definitions and theorems alone.
#![tactic(auto)]
