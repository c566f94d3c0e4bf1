// The call log, the calls on tables and the claims about every list of calls: the crate has no code.
#![tactic(auto)]
