//! The checker of plan documents. It stands apart from the search: it reads a document line by line, and accepts it exactly where it is as it must be.
#![tactic(auto)]

mod checker;
mod checking;
mod counts;
mod draft;
mod entries;
mod files;
mod leaves;
mod names;
mod reader;
mod refused;
mod stages;
mod walk;

pub use checking::{Accepted, check};
pub use files::{CheckEnd, check_from};
pub use refused::Refused;

#[cfg(test)]
mod tests;
