// What document 01 asks of several crates together, each as one claim: entries past a full size, and a plan written out again. The crate has no code.
#![tactic(auto)]
