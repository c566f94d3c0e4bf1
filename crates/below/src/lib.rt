// Bounded search, sums and lists by index: the crate has no code. Definitions in specs/ and laws in proofs/ are cited by the others.
#![tactic(auto)]
