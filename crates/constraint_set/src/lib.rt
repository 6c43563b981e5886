//! The constraint problem of a mode and a number of rounds: its constraints, its decisions and what each choice adds.
#![tactic(auto)]

mod base;
mod bounds;
mod chains;
mod choices;
mod decisions;
mod flat;
mod frame;
pub mod laws;
mod loads;
mod problem;
mod schedule;
#[cfg(test)]
mod tests;

pub use loads::Loads;
pub use problem::Problem;
