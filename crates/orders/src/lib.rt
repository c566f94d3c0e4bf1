// The search for the cheapest directions over stops that are numbered through: waits arranged so that a choice is a first part of them, and each choice judged by what it changes.
#![tactic(auto)]

pub mod arranging;
pub mod search;
