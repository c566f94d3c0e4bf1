// A table of rounds brought up to date after one wait more, in time that goes with the entries that rise: by a plain worklist (`worklist`), or in the order of rounds
// where that comes back to stops too often (`ordered`); and waits that are tried and taken back (`trying`).
#![tactic(auto)]

mod ordered;
pub mod trying;
pub mod worklist;
