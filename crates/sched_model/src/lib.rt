//! Schedules of a mode: what a right one is, the constraints that the search solves, what the search costs, and what refutes a number of rounds.
#![tactic(auto)]

mod chain_clause;
pub mod examples;
pub mod laws;
mod links;
mod message_clause;
mod node_clause;
mod numbered;
mod numbers;
mod round_clauses;
mod rows;
mod schedule;
mod schedule_times;
mod table_clauses;
mod task_clause;
mod trees;
mod verdict;

pub use links::{TaskGraph, TaskSet};
pub use numbered::{
    MessageRow, message_place, message_row, mode_of_task, task_place, task_row, tasks,
};
pub use numbers::{hyper, instances, most_rounds};
pub use rows::{TaskRow, apps_of, deadline_of, mode_name, period_of};
pub use schedule::Schedule;
pub use trees::TreeNode;
pub use verdict::verify;

#[cfg(test)]
mod graph_tests;
#[cfg(test)]
mod verdict_tests;
