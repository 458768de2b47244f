// The demands on building, said of the entries that are called: definitions and theorems alone.
#![tactic(auto)]
