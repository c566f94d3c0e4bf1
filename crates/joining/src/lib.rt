// Two plans joined into one in a third set of tables.
#![tactic(auto)]

pub mod entry;
pub mod replies;
pub mod tests;
