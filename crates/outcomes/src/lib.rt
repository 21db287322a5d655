// No code: each public contract allows one outcome.
#![tactic(auto)]
