// Requests made one after another on lent tables, and the whole way from the input of `field` to its output. The functions for others are those of `program`: they take
// and give bytes and numbers, whatever these are.
#![tactic(auto)]

mod answers;
pub mod program;
mod requests;
