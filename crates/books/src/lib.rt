// No code: why demand 3 holds. What every call keeps true of each slot and of each address's count, over any lawful rules and any start.
#![tactic(auto)]
