// The public calls over lent tables whose dependencies are a slice of records.
#![tactic(auto)]

pub mod calls;
pub mod changes;
