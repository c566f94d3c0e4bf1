// Remaining rounds and remaining cost, two ways: by rounds played on a copy of the drones' places, and by the table of each stop's round.
#![tactic(auto)]

pub mod chains;
pub mod playing;
