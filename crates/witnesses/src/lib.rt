// No code: runs that reach what demand 3 allows, so that no term of it could go and none of it holds for want of a run.
#![tactic(auto)]
