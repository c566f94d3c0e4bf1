// The lent table of dependency records: spread into columns, stored from them, and one record flipped.
#![tactic(auto)]

pub mod columns;
pub mod lent;
pub mod record;
