// The parts of the program `field`: call lines read from its input, answers written to its output.
#![tactic(auto)]

pub mod buffers;
pub mod keys;
pub mod replies;
pub mod requests;
