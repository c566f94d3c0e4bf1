// Reading a plan text into lent tables, with a site text or without.
#![tactic(auto)]

pub mod entry;
mod long_text;
mod pairs;
pub mod replies;
mod storing;
