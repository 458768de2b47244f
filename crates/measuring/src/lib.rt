// What the totals of an area that reads back say of its keys: definitions and theorems alone.

#![tactic(auto)]
