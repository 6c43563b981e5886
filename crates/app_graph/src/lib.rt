//! Mode sets: the modes of a file with their applications, tasks and messages, and the rules that they keep.
#![tactic(auto)]

mod checks;
mod cycle_rule;
mod faults;
mod keys;
pub mod laws;
mod lists;
mod message_rules;
mod mode_rules;
mod mode_set;
mod name_places;
mod name_rules;
mod names;
mod numbering;
mod queries;
mod raw;
mod reaching;
mod size_rules;
mod task_rules;
#[cfg(test)]
mod tests;
mod validation;

pub use faults::GraphFault;
pub use keys::Key;
pub use lists::ListOf;
pub use mode_set::{App, Message, Mode, ModeSet, Task};
pub use names::Name;
pub use queries::{greatest_offset, is_first, is_last};
pub use raw::{RawApp, RawMessage, RawMode, RawSet, RawTask};
pub use reaching::reaches;
pub use validation::validate;
