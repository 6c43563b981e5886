//! The least guard between the parts of a round whose clocks drift, and when a node wakes for a beacon.
#![tactic(auto)]

mod guards;
mod parts;
mod waking;

pub use guards::{Guard, LeastGuard, least_guard};

#[cfg(test)]
mod tests;
