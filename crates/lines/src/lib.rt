// Lines of the plan text, read at a position and written: bytes, numbers, names, stops.
#![tactic(auto)]

pub mod bytes;
pub mod forms;
pub mod keys;
pub mod names;
pub mod numbers;
pub mod refusal;
pub mod stops;
