// The numbers that the entries give: definitions and theorems alone.
#![tactic(auto)]
