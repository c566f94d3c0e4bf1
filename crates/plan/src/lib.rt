// The plan check and the dependencies of a plan.
#![tactic(auto)]

pub mod check;
pub mod dependencies;
pub mod groups;
pub mod lent;
pub mod sharing;
pub mod stops;
pub mod waits;
