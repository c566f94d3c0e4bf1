// What an accepted reading leaves in the tables, and demand 3 of every text that is accepted: the crate has no code.
#![tactic(auto)]
