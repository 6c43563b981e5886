//! Mode files: reading one gives the mode set that it says, or the fault of the first broken rule.
#![tactic(auto)]

mod faults;
pub mod laws;
mod reading;
mod tables;
mod unlisted;
mod values;

pub use faults::{FileFault, KeyText};
pub use reading::read_modes;

#[cfg(test)]
mod tests;
