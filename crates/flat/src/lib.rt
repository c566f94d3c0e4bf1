// The calls' core: over lent tables whose dependencies are flat columns of numbers.
#![tactic(auto)]

pub mod calls;
mod cores;
pub mod costing;
mod exchanging;
mod graph;
mod groups;
pub mod numbers;
mod previewing;
pub mod replies;
pub mod turn_tests;
mod turning;

pub use costing::fill_places;
