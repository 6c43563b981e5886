//! What a plan document tells of.

use app_graph::ListOf;
use sched_model::{Schedule, TreeNode};

/// A tree that shows that a number of rounds has no schedule.
#[derive(Drop)]
pub struct Tree {
    /// Its nodes in preorder, children in ascending order of their alternatives.
    pub nodes: ListOf<TreeNode>,
    /// The constraint numbers of all its cycles: each cycle says which part of them is its own.
    pub refs: ListOf<u32>,
}

/// What a plan tells of a mode.
#[derive(Drop)]
pub struct ModePart {
    /// A tree for 1 round, for 2 rounds and so on.
    pub refuted: ListOf<Tree>,
    /// The mode's schedule, whose number of rounds is the next one, or none where the mode has none.
    pub schedule: Option<Schedule>,
}
