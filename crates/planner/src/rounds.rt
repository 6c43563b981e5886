//! One number of rounds.

ghost use Rattle.std.specs.Prelude.{IfOk};
ghost use Rattle.planner.specs.Plans.{IsTried};

use branch_search::{Answer, search};
use constraint_set::Problem;
use proof_tree::Tree;
use sched_model::Schedule;
use std::alloc::{AllocError, Global};

/// What one number of rounds has.
#[derive(Drop)]
pub(crate) enum Tried {
    /// The schedule that is printed for it, and how many prefixes were visited.
    Made { schedule: Schedule, visited: u64 },
    /// A tree that shows that it has no schedule, and how many prefixes were visited.
    Refuted { tree: Tree, visited: u64 },
    /// More prefixes are visited than the budget.
    Spent,
}

/// Searches a schedule of the problem's number of rounds, over at most `budget` prefixes.
pub(crate) fn try_rounds(alloc: Global, problem: &Problem, budget: u64) -> Result<Tried, AllocError>
    ensures { IfOk result (IsTried problem.now.mode problem.now.rounds budget) }
{
    match search(alloc, problem, budget)? {
        Answer::Found {
            choice,
            values,
            visited,
        } => {
            let schedule = problem.to_schedule(choice.as_slice(), values.as_slice())?;
            Ok(Tried::Made { schedule, visited })
        }
        Answer::Refuted { tree, visited } => Ok(Tried::Refuted { tree, visited }),
        Answer::Spent => Ok(Tried::Spent),
    }
}
