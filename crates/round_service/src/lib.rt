//! Which round instances serve a message: the alternatives of its instances, the constraints that a choice adds, and the load of a round.
#![tactic(auto)]

mod choices;
pub mod laws;
mod numbered;

pub use choices::{MessageTimes, first_choices, later_choices, load, round_of_choice, serve_diffs};
pub use numbered::{alternatives, diffs_of};

#[cfg(test)]
mod numbered_tests;
#[cfg(test)]
mod tests;
