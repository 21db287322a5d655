// No code: the definitions and lemmas that several crates cite, each stated once.
#![tactic(auto)]
