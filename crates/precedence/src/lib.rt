// The plan graph, its rounds, cycles and chains: the crate has no code. Definitions in specs/ and laws in proofs/ are cited by the others.
#![tactic(auto)]
