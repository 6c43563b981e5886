//! From one visited prefix to the next.

ghost use Rattle.std.specs.Prelude.{◌≡◌, ◌+◌, ◌-◌, ◌*◌, ◌≤◌, ◌++◌, ◌∷◌, [], length, All, IfOk, OnOk};
ghost use Rattle.sched_model.specs.ConstraintProblem.{vars, base, decisions};
ghost use Rattle.sched_model.specs.OpenPrefix.{Open};
ghost use Rattle.branch_search.specs.Stacks.{next_due};
ghost use Rattle.branch_search.specs.Forcing.{Fronts};
ghost use Rattle.branch_search.specs.Walking.{FrontTally, Standing};
ghost use Rattle.branch_search.specs.Coming.{Benched, TallyFor, IsStep, Comes};

use crate::posed::Posed;
use crate::seeing::{Bench, look};
use crate::stack::advance;
use proof_tree::TreeNode;
use std::alloc::AllocError;

/// What comes after a visited prefix.
#[derive(Clone, Copy)]
pub(crate) enum Next {
    /// Another prefix is due.
    Due,
    /// The prefix is full and open.
    Found,
    /// All prefixes have been visited.
    Refuted,
}

/// The prefix that is due, the greatest alternative at each of its choices, and the nodes of the prefixes visited before.
#[derive(Drop)]
pub(crate) struct Walk {
    pub(crate) prefix: Vec<i64>,
    pub(crate) highs: Vec<i64>,
    pub(crate) nodes: Vec<TreeNode>,
    pub(crate) refs: Vec<u32>,
}

/// Ends the tree of the prefix by a node, and goes to the next prefix.
fn end_tree(walk: &mut Walk, node: TreeNode) -> Result<Next, AllocError>
    requires same { length walk.old.prefix.items ≡ length walk.old.highs.items }
    ensures nodes { IfOk result (λ _. walk.new.nodes.items ≡ walk.old.nodes.items ++ node ∷ []) }
    ensures next { IfOk result (λ next. IsStep walk.new.prefix.items walk.new.highs.items (next_due (length walk.old.prefix.items) walk.old.prefix.items walk.old.highs.items) next) }
    ensures refs { walk.new.refs.items ≡ walk.old.refs.items }
{
    walk.nodes.push(node)?;
    if advance(&mut walk.prefix, &mut walk.highs) {
        Ok(Next::Due)
    } else {
        Ok(Next::Refuted)
    }
}

/// Puts a branch for an open prefix, and goes to its first alternative. A full one is found.
pub(crate) fn open_prefix<P: Posed>(problem: &P, walk: &mut Walk) -> Result<Next, AllocError>
    requires standing { Standing (P.mode problem.now) (P.rounds problem.now) walk.old.prefix.items walk.old.highs.items walk.old.nodes.items walk.old.refs.items }
    requires is_open { Open (P.mode problem.now) (P.rounds problem.now) walk.old.prefix.items }
    ensures { IfOk result (λ next. Comes (P.mode problem.now) (P.rounds problem.now) walk.old.prefix.items (length walk.old.nodes.items) walk.new.prefix.items walk.new.highs.items walk.new.nodes.items walk.new.refs.items next) }
{
    if walk.prefix.len() == problem.decisions() {
        return Ok(Next::Found);
    }
    let (low, high) = problem.alternatives(walk.prefix.as_slice());
    if low > high {
        return end_tree(walk, TreeNode::Branch);
    }
    walk.nodes.push(TreeNode::Branch)?;
    walk.prefix.push(low)?;
    walk.highs.push(high)?;
    Ok(Next::Due)
}

/// Visits the prefix that is due, and goes to the next one.
pub(crate) fn visit<P: Posed>(
    problem: &P,
    walk: &mut Walk,
    bench: &mut Bench,
) -> Result<Next, AllocError>
    requires standing { Standing (P.mode problem.now) (P.rounds problem.now) walk.old.prefix.items walk.old.highs.items walk.old.nodes.items walk.old.refs.items }
    requires fronts { Fronts (P.mode problem.now) (P.rounds problem.now) walk.old.prefix.items bench.old.store.list }
    requires tally { FrontTally (P.mode problem.now) (P.rounds problem.now) walk.old.prefix.items bench.old.loads }
    requires variables { bench.old.store.variables ≡ vars (P.mode problem.now) (P.rounds problem.now) }
    requires room { bench.old.store.constraints ≡ length (base (P.mode problem.now) (P.rounds problem.now)) + 2 * length (decisions (P.mode problem.now)) }
    ensures comes { IfOk result (λ next. Comes (P.mode problem.now) (P.rounds problem.now) walk.old.prefix.items (length walk.old.nodes.items) walk.new.prefix.items walk.new.highs.items walk.new.nodes.items walk.new.refs.items next) }
    ensures benched { IfOk result (λ next. Benched (P.mode problem.now) (P.rounds problem.now) walk.new.prefix.items bench.new.store.list next) }
    ensures tally { IfOk result (λ next. TallyFor (P.mode problem.now) (P.rounds problem.now) walk.new.prefix.items bench.new.loads next) }
    ensures variables { bench.new.store.variables ≡ bench.old.store.variables }
    ensures room { bench.new.store.constraints ≡ bench.old.store.constraints }
{
    match look(problem, walk.prefix.as_slice(), bench, &mut walk.refs)? {
        Some(leaf) => end_tree(walk, leaf),
        None => open_prefix(problem, walk),
    }
}
