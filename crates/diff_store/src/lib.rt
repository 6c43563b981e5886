//! Constraints on differences that are pushed and popped, with the least values of those that
//! stand, or a cycle of bounds that forbids them.
#![tactic(auto)]

mod answering;
mod chains;
mod cycles;
mod raising;
mod store;
mod trail;
mod turn_marks;
mod worklist;

pub use store::{Pushed, Store};

#[cfg(test)]
mod tests;
