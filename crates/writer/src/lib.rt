// The section written from the builder's area.

#![tactic(auto)]
