// The lines that a plan's tables would be written as, reckoned and copied into other tables as reading them would store them: no text is made.
#![tactic(auto)]

pub mod copies;
mod drones;
pub mod ends;
pub mod pair;
