//! Least values for a list of bounds on differences, or a cycle of bounds that forbids them.
#![tactic(auto)]

mod cycles;
mod rounds;
mod solver;
mod workspace;

pub use solver::{Solved, solve};
pub use workspace::Work;

#[cfg(test)]
mod tests;
