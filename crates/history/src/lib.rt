// No code: what a run's history is, and what is fresh by it.
#![tactic(auto)]
