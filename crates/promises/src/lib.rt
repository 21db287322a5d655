// No code: what is proved of every history and of the whole, over the definitions that the contracts cite.
#![tactic(auto)]
