//! The search over an explicit stack.

ghost use Rattle.std.specs.Prelude.{◌≡◌, ℕ, ◌+◌, ◌*◌, [], length, IfOk};
ghost use Rattle.sched_model.specs.ConstraintProblem.{vars, base, decisions};
ghost use Rattle.sched_model.specs.SearchCost.{Visited};
ghost use Rattle.constraint_set.specs.Loads.{tally_of};
ghost use Rattle.branch_search.specs.Answers.{HasList, HasTree, IsAnswer};

use crate::posed::Posed;
use crate::seeing::Bench;
use crate::walk::{Next, Walk, visit};
use app_graph::ListOf;
use constraint_set::Loads;
use diff_store::Store;
use proof_tree::Tree;
use sched_model::laws::costs_exist;
use std::alloc::{AllocError, Global};
use tick_num::Time;

/// What a search answers.
#[derive(Drop)]
pub enum Answer {
    /// The first full open list of choices, the least values of its constraints by variable, and how many prefixes were visited.
    Found {
        choice: ListOf<i64>,
        values: ListOf<Time>,
        visited: u64,
    },
    /// No full list is open: a tree with a node for each visited prefix, and their number.
    Refuted {
        tree: Tree,
        visited: u64,
    },
    /// More prefixes are visited than the budget.
    Spent,
}

/// An empty store with room for the longest list of constraints, and room for all choices.
fn prepare<P: Posed>(alloc: Global, problem: &P) -> Result<Bench, AllocError>
    ensures list { IfOk result (λ b. b.store.list ≡ []) }
    ensures variables { IfOk result (λ b. b.store.variables ≡ vars (P.mode problem.now) (P.rounds problem.now)) }
    ensures room { IfOk result (λ b. b.store.constraints ≡ length (base (P.mode problem.now) (P.rounds problem.now)) + 2 * length (decisions (P.mode problem.now))) }
    ensures tally { IfOk result (λ b. b.loads ≡ tally_of (P.mode problem.now) (P.rounds problem.now) []) }
    ensures counted { IfOk result (λ _. (v : ℕ) × Visited (P.mode problem.now) (P.rounds problem.now) v) }
{
    costs_exist();
    let room = problem.base().len() + 2 * problem.decisions();
    let store = Store::reserve(alloc, problem.vars(), room)?;
    let loads = Loads::reserve(alloc, problem.rounds(), problem.decisions())?;
    Ok(Bench { store, loads })
}

impl Walk {
    /// The answer that no list is open.
    fn refuted(self, visited: u64) -> Answer
        ensures { HasTree self.nodes.items self.refs.items visited result }
    {
        let Walk {
            prefix: _prefix,
            highs: _highs,
            nodes,
            refs,
        } = self;
        Answer::Refuted {
            tree: Tree {
                nodes: ListOf::from_vec(nodes),
                refs: ListOf::from_vec(refs),
            },
            visited,
        }
    }

    /// The answer that the prefix is the first full open list.
    fn found(self, values: Vec<Time>, visited: u64) -> Answer
        ensures { HasList self.prefix.items values.items visited result }
    {
        let Walk {
            prefix,
            highs: _highs,
            nodes: _nodes,
            refs: _refs,
        } = self;
        Answer::Found {
            choice: ListOf::from_vec(prefix),
            values: ListOf::from_vec(values),
            visited,
        }
    }
}

/// Visits prefixes depth first, alternatives in ascending order, from the empty one on, to the first that is full and open.
/// `Spent` comes exactly where more than `budget` prefixes are visited.
pub fn search<P: Posed>(alloc: Global, problem: &P, budget: u64) -> Result<Answer, AllocError>
    ensures { IfOk result (λ answer. IsAnswer (P.mode problem.now) (P.rounds problem.now) budget answer) }
{
    let mut bench = prepare(alloc, problem)?;
    let mut walk = Walk {
        prefix: Vec::new(alloc),
        highs: Vec::new(alloc),
        nodes: Vec::new(alloc),
        refs: Vec::new(alloc),
    };
    for visited in 0..budget {
        match visit(problem, &mut walk, &mut bench)? {
            Next::Due => {}
            Next::Found => {
                let values = Vec::from_slice(alloc, bench.store.values())?;
                return Ok(walk.found(values, visited + 1));
            }
            Next::Refuted => return Ok(walk.refuted(visited + 1)),
        }
    }
    Ok(Answer::Spent)
}
