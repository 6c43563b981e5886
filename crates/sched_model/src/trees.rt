//! The nodes of a refutation tree as they are stored. They stand here because the definition of a valid tree does.

/// A node of a tree that shows that a number of rounds has no schedule. A tree is the list of its nodes in preorder.
#[derive(Clone, Copy, Debug, PartialEq, Eq, Drop)]
pub enum TreeNode {
    /// One child per alternative of the next decision, in ascending order.
    Branch,
    /// The mode has more message instances in a hyperperiod than the rounds have slots.
    Short,
    /// The round of this number, from 1, is chosen more often than it has slots.
    Full(u64),
    /// A negative cycle: `len` numbers of constraints, from place `from` on in the list that the tree keeps beside its nodes.
    Cycle { from: usize, len: usize },
}
