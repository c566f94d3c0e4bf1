// "After a long delay the pilot wants the cheapest directions" (request 11): the call over the lent plan and the columns of its dependencies.
#![tactic(auto)]

pub mod calls;
mod listing;
mod opening;
pub mod replies;
