//! The world: the host, all nodes and the medium, stepped by one event after the other.
//! docs/WORLD.md has the rules.
#![tactic(auto)]

mod bodies;
mod cycle;
#[cfg(test)]
mod cycle_tests;
mod due;
mod happened;
mod kept;
pub mod laws;
mod make;
mod medium;
mod node;
mod owners;
mod state;
#[cfg(test)]
mod tests;
mod world;

pub use bodies::missing_body;
pub use happened::{Done, Event, Happened};
pub use world::World;
