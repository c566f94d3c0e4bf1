// The whole plan text: its reader, from a text to lent tables, and its writer, from lent tables to a text.
#![tactic(auto)]

pub mod reader;
pub mod writer;
