// The demands, said of the entries that are called: definitions and theorems alone.
#![tactic(auto)]
