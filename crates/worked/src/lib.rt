// The worked store of document 01: examples of the definitions alone.
#![tactic(auto)]
