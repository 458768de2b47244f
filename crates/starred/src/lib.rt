// Document 01's starred lines: definitions and a theorem alone.
#![tactic(auto)]
