// From a list of adds to a section that opens: definitions and theorems alone.

#![tactic(auto)]
