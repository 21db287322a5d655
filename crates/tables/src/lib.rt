// The gateway's two tables, as their caller lends them: the sizes that they may have, and what time does to them.
#![tactic(auto)]

pub mod clock;
pub mod sizes;
