//! Which task of a node runs first: the alternatives of a pair of tasks, and the constraints that a choice adds.
#![tactic(auto)]

pub mod laws;
mod numbered;
mod places;
mod sharing;

pub use numbered::{alternatives, diffs_of};
pub use places::{TaskTimes, divisor_of, order_diffs, places_of};
pub use sharing::pairs;

#[cfg(test)]
mod numbered_tests;
#[cfg(test)]
mod tests;
