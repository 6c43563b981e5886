//! Plan documents: the text of trees and schedules, what a line says, and which documents are accepted.
#![tactic(auto)]

mod document;
pub mod examples;
pub mod laws;
mod lines;
mod tree;
mod words;

pub use document::{write_plan, write_schedule, write_tree};
pub use lines::{BadLine, PlanLine, item, next_value, value};
pub use sched_model::TreeNode;
pub use tree::{ModePart, Tree};

#[cfg(test)]
mod tests;
