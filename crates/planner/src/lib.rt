//! Plans of modes: the fewest rounds, or that no number of rounds has a schedule.
#![tactic(auto)]

pub mod laws;
mod plan;
mod rounds;

pub use plan::{Planned, plan_mode};
